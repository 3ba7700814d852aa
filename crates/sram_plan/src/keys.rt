ghost use Rattle.std.specs.Prelude.{◌≡◌, ◌<◌, ◌≤◌, ◌%◌, ◌||◌, ◌&&◌, pos, IfOk, IfSome, IsTrue};
ghost use Rattle.std.specs.List.{list_all};
ghost use Rattle.sram_netlist.specs.Membership.{IsOneOf};
ghost use Rattle.toml_keys.specs.Fault.{MatchesUnless};
ghost use Rattle.toml_keys.specs.Keys.{optional};
ghost use Rattle.toml_keys.specs.Section.{section_of};
ghost use Rattle.sram_plan.specs.Config.{is_printable_byte, is_file_text, is_letter_byte, is_name_char, is_identifier};
ghost use Rattle.sram_plan.specs.Config.{is_output_name, starts_with_letter};
ghost use Rattle.sram_plan.specs.Fault.{config_faults};
ghost use Rattle.sram_plan.specs.Keys.{natural_under, listed_under, listed_or, divisor_under, divisor_or_whole};
ghost use Rattle.sram_plan.specs.Keys.{file_text_under, output_name_under};
ghost use Rattle.sram_plan.specs.declared.fault.ConfigFault.TheVariants.{Memory};

use crate::fault::ConfigFault;
use crate::keywords::is_keyword;
use or_geom::Name;
use toml_keys::KeyTable;

/// A whole number from `low` to `high`.
pub fn natural(
    table: &KeyTable<ConfigFault>,
    key: &str,
    low: u32,
    high: u32,
) -> Result<u32, ConfigFault>
    ensures given { MatchesUnless Memory result (natural_under low high (section_of config_faults table.now) key.now) }
    ensures from { IfOk result (λ n. low ≤ n) }
    ensures to { IfOk result (λ n. n ≤ high) }
{
    let number = table.number(key, i64::from(low), i64::from(high))?;
    Ok(number as u32)
}

/// One of these numbers.
#[tactic(auto, unfolding(crate::specs::Keys::listed_under))]
pub fn listed(table: &KeyTable<ConfigFault>, key: &str, values: &[u32]) -> Result<u32, ConfigFault>
    ensures given { MatchesUnless Memory result (listed_under values.now (section_of config_faults table.now) key.now) }
    ensures among { IfOk result (λ n. IsOneOf n values.now) }
{
    let number = natural(table, key, 0, u32::MAX)?;
    if !values.contains(&number) {
        return Err(table.out_of_range(key));
    }
    Ok(number)
}

/// The same, or this number where the key isn't there.
pub fn listed_or(
    table: &KeyTable<ConfigFault>,
    key: &str,
    values: &[u32],
    absent: u32,
) -> Result<u32, ConfigFault>
    requires { IsOneOf absent values.now }
    ensures given { MatchesUnless Memory result
        (listed_or absent values.now (section_of config_faults table.now) key.now) }
    ensures among { IfOk result (λ n. IsOneOf n values.now) }
{
    if table.has(key) {
        return listed(table, key, values);
    }
    Ok(absent)
}

/// The same, or nothing.
pub fn listed_if(
    table: &KeyTable<ConfigFault>,
    key: &str,
    values: &[u32],
) -> Result<Option<u32>, ConfigFault>
    ensures given { MatchesUnless Memory result
        (optional (listed_under values.now) (section_of config_faults table.now) key.now) }
    ensures among { IfOk result (λ found. IfSome found (λ n. IsOneOf n values.now)) }
{
    if !table.has(key) {
        return Ok(None);
    }
    let number = listed(table, key, values)?;
    Ok(Some(number))
}

/// A number that divides `whole`, or `whole` where the key isn't there.
pub fn divisor_or_whole(
    table: &KeyTable<ConfigFault>,
    key: &str,
    whole: u32,
) -> Result<u32, ConfigFault>
    requires { 0 < whole }
    ensures given { MatchesUnless Memory result (divisor_or_whole whole (section_of config_faults table.now) key.now) }
    ensures some { IfOk result (λ n. 0 < n) }
    ensures few { IfOk result (λ n. n ≤ whole) }
    ensures divides { IfOk result (λ n. whole % n ≡ 0) }
{
    if table.has(key) {
        return divisor(table, key, whole);
    }
    Ok(whole)
}

#[tactic(auto, unfolding(crate::specs::Keys::divisor_under))]
fn divisor(table: &KeyTable<ConfigFault>, key: &str, whole: u32) -> Result<u32, ConfigFault>
    ensures given { MatchesUnless Memory result (divisor_under whole (section_of config_faults table.now) key.now) }
    ensures some { IfOk result (λ n. 0 < n) }
    ensures few { IfOk result (λ n. n ≤ whole) }
    ensures divides { IfOk result (λ n. whole % n ≡ 0) }
{
    let number = natural(table, key, 1, whole)?;
    if whole % number != 0 {
        return Err(table.out_of_range(key));
    }
    Ok(number)
}

/// A text that files may be named by.
#[tactic(auto, unfolding(crate::specs::Keys::file_text_under))]
pub fn file_text(table: &KeyTable<ConfigFault>, key: &str) -> Result<Name, ConfigFault>
    ensures given { MatchesUnless Memory result (file_text_under (section_of config_faults table.now) key.now) }
    ensures good { IfOk result (λ n. IsTrue (is_file_text n)) }
{
    let text = table.text(key)?;
    if !is_file_text(text.as_bytes()) {
        return Err(table.out_of_range(key));
    }
    Ok(Name::from_bytes(table.alloc(), text.as_bytes())?)
}

/// The same, or nothing where the key isn't there.
pub fn file_text_if(table: &KeyTable<ConfigFault>, key: &str) -> Result<Option<Name>, ConfigFault>
    ensures given { MatchesUnless Memory result
        (optional file_text_under (section_of config_faults table.now) key.now) }
    ensures good { IfOk result (λ found. IfSome found (λ n. IsTrue (is_file_text n))) }
{
    if !table.has(key) {
        return Ok(None);
    }
    let text = file_text(table, key)?;
    Ok(Some(text))
}

/// A text that subcircuits may be named by.
#[tactic(auto, unfolding(crate::specs::Keys::output_name_under))]
pub fn output_name(table: &KeyTable<ConfigFault>, key: &str) -> Result<Name, ConfigFault>
    ensures given { MatchesUnless Memory result (output_name_under (section_of config_faults table.now) key.now) }
    ensures good { IfOk result (λ n. IsTrue (is_output_name n)) }
{
    let text = table.text(key)?;
    if !is_output_name(text) {
        return Err(table.out_of_range(key));
    }
    Ok(Name::from_bytes(table.alloc(), text.as_bytes())?)
}

fn is_file_text(text: &[u8]) -> bool
    ensures { result ≡ is_file_text text.now }
{
    if text.is_empty() || 200 < text.len() {
        return false;
    }
    are_printable(text)
}

fn are_printable(text: &[u8]) -> bool
    ensures { result ≡ list_all is_printable_byte text.now }
{
    text.iter().all(|b| matches!(*b, 32..=126))
}

fn is_output_name(text: &str) -> bool
    ensures { result ≡ is_output_name text.now }
{
    is_identifier(text.as_bytes()) && !is_keyword(text)
}

fn is_identifier(text: &[u8]) -> bool
    ensures { result ≡ is_identifier text.now }
{
    if 24 < text.len() || !starts_with_letter(text) {
        return false;
    }
    are_name_chars(text)
}

fn starts_with_letter(text: &[u8]) -> bool
    ensures { result ≡ starts_with_letter text.now }
{
    match text {
        [first, ..] => is_letter(*first),
        [] => false,
    }
}

fn is_letter(b: u8) -> bool
    ensures { result ≡ is_letter_byte b }
{
    matches!(b, b'A'..=b'Z' | b'a'..=b'z')
}

fn are_name_chars(text: &[u8]) -> bool
    ensures { result ≡ list_all is_name_char text.now }
{
    text.iter()
        .all(|b| is_letter(*b) || matches!(*b, b'0'..=b'9' | b'_'))
}
