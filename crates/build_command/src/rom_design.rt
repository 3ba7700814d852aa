ghost use Rattle.std.specs.Prelude.{◌≡◌, ◌⊎◌, None, false, IfOk};
ghost use Rattle.sram_plan.specs.Config.{IsConfig};
ghost use Rattle.command_steps.specs.Outcome.{UnlessMemory, is_read_failed, is_usage_outcome};
ghost use Rattle.command_steps.specs.Reading.{HasRead};
ghost use Rattle.build_command.specs.Design.{IsGoodDesign};
ghost use Rattle.build_command.specs.RomDesign.{key_against_rom, IsRomConfiguration, IsRomWith, IsRomOver, IsRomUnder};
ghost use Rattle.build_command.specs.RomDesign.{IsRomAfter, IsRomDesign, IsGoodRom};
ghost use Rattle.reply_lines.specs.declared.refusal.Refusal.TheVariants as refusal_of;
ghost use Rattle.rom_leaves.specs.RomLeaves.{HasRomLeaves};

use crate::design::{Design, design_of, read_configuration};
use command_steps::read_file;
use or_geom::{Items, Name};
use or_host::Store;
use reply_lines::Refusal;
use rom_data::rom_words;
use rom_leaves::rom_leaves;
use sram_plan::Config;
use std::alloc::Global;

/// All that a read-only memory is built of: a design, and the words that it holds, by address.
#[derive(Drop)]
pub struct RomDesign {
    pub design: Design,
    pub words: Items<u64>,
}

/// No read-only memory has the configuration's value at this key.
fn not_rom(alloc: Global, key: &str) -> Refusal
    ensures { (result ≡ refusal_of.Memory) ⊎ (result ≡ refusal_of.NotRom key.now) }
{
    match Name::from_bytes(alloc, key.as_bytes()) {
        Ok(key) => Refusal::NotRom { key },
        Err(_) => Refusal::Memory,
    }
}

/// A configuration that may be of a read-only memory, or the first key that is against it.
fn rom_configuration(alloc: Global, config: Config) -> Result<Config, Refusal>
    ensures config { UnlessMemory (IsRomConfiguration config) result }
    ensures read { is_read_failed result ≡ false }
    ensures words { is_usage_outcome result ≡ false }
{
    if config.num_banks != 1 {
        return Err(not_rom(alloc, "num_banks"));
    }
    if config.write_size != config.word_size {
        return Err(not_rom(alloc, "write_size"));
    }
    Ok(config)
}

/// A design with the words of the data file.
fn rom_with<S: Store>(
    alloc: Global,
    design: Design,
    content: &str,
    store: &mut S,
) -> Result<RomDesign, Refusal>
    requires design { IsGoodDesign design }
    requires suited { key_against_rom design.config ≡ None }
    requires cells { HasRomLeaves design.kit }
    ensures read { HasRead (λ files. IsRomWith files content.now design) result (S.state store.old)
        (S.state store.new) }
    ensures good { IfOk result IsGoodRom }
    ensures words { is_usage_outcome result ≡ false }
{
    let bytes = read_file(alloc, content, store)?;
    let words = rom_words(alloc, &design.plan, bytes.as_slice()).map_err(Refusal::Rom)?;
    Ok(RomDesign {
        design,
        words: Items::from_vec(words),
    })
}

/// The same, after the cells that hold fixed bits.
fn rom_over<S: Store>(
    alloc: Global,
    design: Design,
    content: &str,
    store: &mut S,
) -> Result<RomDesign, Refusal>
    requires design { IsGoodDesign design }
    requires suited { key_against_rom design.config ≡ None }
    ensures read { HasRead (λ files. IsRomOver files content.now design) result (S.state store.old)
        (S.state store.new) }
    ensures good { IfOk result IsGoodRom }
    ensures words { is_usage_outcome result ≡ false }
{
    rom_leaves(alloc, &design.kit).map_err(Refusal::Kit)?;
    rom_with(alloc, design, content, store)
}

/// The read-only memory of a configuration that may be of one.
fn rom_under<S: Store>(
    alloc: Global,
    config: Config,
    content: &str,
    store: &mut S,
) -> Result<RomDesign, Refusal>
    requires config { IsConfig config }
    requires suited { key_against_rom config ≡ None }
    ensures read { HasRead (λ files. IsRomUnder files content.now config) result (S.state store.old)
        (S.state store.new) }
    ensures good { IfOk result IsGoodRom }
    ensures words { is_usage_outcome result ≡ false }
{
    let design = design_of(alloc, config, store)?;
    rom_over(alloc, design, content, store)
}

/// The read-only memory of a configuration.
fn rom_after<S: Store>(
    alloc: Global,
    config: Config,
    content: &str,
    store: &mut S,
) -> Result<RomDesign, Refusal>
    requires config { IsConfig config }
    ensures read { HasRead (λ files. IsRomAfter files content.now config) result (S.state store.old)
        (S.state store.new) }
    ensures good { IfOk result IsGoodRom }
    ensures words { is_usage_outcome result ≡ false }
{
    let config = rom_configuration(alloc, config)?;
    rom_under(alloc, config, content, store)
}

/// Reads what a read-only memory is built of: its design, as `read_design` does, and then the data file. After the
/// configuration its keys are looked at that no such memory has, and after the kit its cells that hold fixed bits.
pub fn read_rom<S: Store>(
    alloc: Global,
    name: &str,
    content: &str,
    store: &mut S,
) -> Result<RomDesign, Refusal>
    ensures read { HasRead (λ files. IsRomDesign files name.now content.now) result (S.state store.old)
        (S.state store.new) }
    ensures good { IfOk result IsGoodRom }
    ensures words { is_usage_outcome result ≡ false }
{
    let config = read_configuration(alloc, name, store)?;
    rom_after(alloc, config, content, store)
}
