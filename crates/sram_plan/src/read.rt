ghost use Rattle.std.specs.Prelude.{◌≡◌, ◌≢◌, ◌<◌, ◌≤◌, IfOk, IfErr, IfSome, IsTrue};
ghost use Rattle.sram_netlist.specs.Membership.{IsOneOf};
ghost use Rattle.toml.specs.View.{view};
ghost use Rattle.toml_keys.specs.Fault.{MatchesUnless};
ghost use Rattle.toml_keys.specs.Keys.{whole};
ghost use Rattle.toml_keys.specs.Section.{section_of};
ghost use Rattle.sram_plan.specs.Config.{IsConfig, word_counts, row_counts, bank_counts, is_file_text, is_output_name};
ghost use Rattle.sram_plan.specs.Configuration.{counts_in, ports_in, names_in, config_in, config_of, configuration};
ghost use Rattle.sram_plan.specs.Fault.{config_faults};
ghost use Rattle.sram_plan.specs.declared.fault.ConfigFault.TheVariants.{Memory};

use crate::config::Config;
use crate::fault::ConfigFault;
use crate::keys::{
    divisor_or_whole, file_text, file_text_if, listed, listed_if, listed_or, natural, output_name,
};
use or_geom::Name;
use std::alloc::Global;
use toml::Value;
use toml_keys::{KeyTable, document_from};

/// The keys that a configuration may have: those that are looked at, and those whose value has no meaning here.
const KNOWN_KEYS: [&str; 18] = [
    "word_size",
    "num_words",
    "words_per_row",
    "num_banks",
    "num_rw_ports",
    "num_r_ports",
    "num_w_ports",
    "write_size",
    "tech_name",
    "output_path",
    "output_name",
    "nominal_corner_only",
    "process_corners",
    "supply_voltages",
    "temperatures",
    "route_supplies",
    "perimeter_pins",
    "check_lvsdrc",
];

/// Reads a configuration, which is a TOML document. A key that no configuration has comes first, then the keys in a
/// fixed order; at one key the fault is that it is missing, then that it is of another kind, then that it isn't
/// allowed.
pub fn read_config(alloc: Global, bytes: &[u8]) -> Result<Config, ConfigFault>
    ensures read { IfOk result (λ config. configuration bytes.now ≡ Ok config) }
    ensures fault { IfErr result (λ e. e ≢ Memory → configuration bytes.now ≡ Err e) }
    ensures good { IfOk result IsConfig }
{
    match document_from(alloc, bytes)? {
        Some(document) => config_from(alloc, &Value::Table(document)),
        None => Err(ConfigFault::NotToml),
    }
}

/// The configuration that a document describes.
fn config_from(alloc: Global, document: &Value) -> Result<Config, ConfigFault>
    ensures given { MatchesUnless Memory result (config_of (whole config_faults (view document.now))) }
    ensures good { IfOk result IsConfig }
{
    config_or_unknown(&KeyTable::whole(alloc, document))
}

fn config_or_unknown(document: &KeyTable<ConfigFault>) -> Result<Config, ConfigFault>
    ensures given { MatchesUnless Memory result (config_of (section_of config_faults document.now)) }
    ensures good { IfOk result IsConfig }
{
    if let Some(key) = document.unknown_key(&KNOWN_KEYS)? {
        return Err(ConfigFault::UnknownKey { key });
    }
    config_in(document)
}

/// The counts that a configuration gives.
#[derive(Clone, Copy)]
struct ConfigCounts {
    word_size: u32,
    num_words: u32,
    words_per_row: Option<u32>,
    num_banks: u32,
}

/// The names that a configuration gives.
#[derive(Drop)]
struct ConfigNames {
    tech_name: Name,
    output_path: Option<Name>,
    output_name: Name,
}

/// The configuration that a document's keys describe, which are looked at in a fixed order.
#[tactic(auto, unfolding(crate::specs::Configuration::config_in))]
fn config_in(document: &KeyTable<ConfigFault>) -> Result<Config, ConfigFault>
    ensures given { MatchesUnless Memory result (config_in (section_of config_faults document.now)) }
    ensures good { IfOk result IsConfig }
{
    let counts = counts_in(document)?;
    let _ports = ports_in(document)?;
    let write_size = divisor_or_whole(document, "write_size", counts.word_size)?;
    let names = names_in(document)?;
    Ok(Config {
        word_size: counts.word_size,
        num_words: counts.num_words,
        words_per_row: counts.words_per_row,
        num_banks: counts.num_banks,
        write_size,
        tech_name: names.tech_name,
        output_path: names.output_path,
        output_name: names.output_name,
    })
}

/// The counts of bits, words and banks.
#[tactic(auto, unfolding(crate::specs::Configuration::counts_in))]
fn counts_in(document: &KeyTable<ConfigFault>) -> Result<ConfigCounts, ConfigFault>
    ensures given { MatchesUnless Memory result (counts_in (section_of config_faults document.now)) }
    ensures some_bits { IfOk result (λ counts. 0 < counts.word_size) }
    ensures few_bits { IfOk result (λ counts. counts.word_size ≤ 64) }
    ensures words { IfOk result (λ counts. IsOneOf counts.num_words word_counts) }
    ensures rows { IfOk result (λ counts. IfSome counts.words_per_row (λ w. IsOneOf w row_counts)) }
    ensures banks { IfOk result (λ counts. IsOneOf counts.num_banks bank_counts) }
{
    let word_size = natural(document, "word_size", 1, 64)?;
    let num_words = listed(
        document,
        "num_words",
        &[16, 32, 64, 128, 256, 512, 1024, 2048, 4096, 8192],
    )?;
    let words_per_row = listed_if(document, "words_per_row", &[1, 2, 4, 8])?;
    let num_banks = listed_or(document, "num_banks", &[1, 2, 4], 1)?;
    Ok(ConfigCounts {
        word_size,
        num_words,
        words_per_row,
        num_banks,
    })
}

/// One port that reads and writes, and no other.
#[tactic(auto, unfolding(crate::specs::Configuration::ports_in))]
fn ports_in(document: &KeyTable<ConfigFault>) -> Result<u32, ConfigFault>
    ensures { MatchesUnless Memory result (ports_in (section_of config_faults document.now)) }
{
    let _both = listed_or(document, "num_rw_ports", &[1], 1)?;
    let _reading = listed_or(document, "num_r_ports", &[0], 0)?;
    listed_or(document, "num_w_ports", &[0], 0)
}

/// The names of files and of the memory.
#[tactic(auto, unfolding(crate::specs::Configuration::names_in))]
fn names_in(document: &KeyTable<ConfigFault>) -> Result<ConfigNames, ConfigFault>
    ensures given { MatchesUnless Memory result (names_in (section_of config_faults document.now)) }
    ensures tech_name { IfOk result (λ names. IsTrue (is_file_text names.tech_name)) }
    ensures output_path { IfOk result (λ names. IfSome names.output_path (λ path. IsTrue (is_file_text path))) }
    ensures output_name { IfOk result (λ names. IsTrue (is_output_name names.output_name)) }
{
    let tech_name = file_text(document, "tech_name")?;
    let output_path = file_text_if(document, "output_path")?;
    let output_name = output_name(document, "output_name")?;
    Ok(ConfigNames {
        tech_name,
        output_path,
        output_name,
    })
}
