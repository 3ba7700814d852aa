ghost use Rattle.std.specs.Prelude.{◌≡◌, ◌++◌, codes, false, IfOk};
ghost use Rattle.gds_library.specs.Writable.{IsWritable};
ghost use Rattle.tech_rules.specs.Facts.{IsTech};
ghost use Rattle.openram_cli.specs.CommandWords.{told_inspection, told_layout};
ghost use Rattle.openram_cli.specs.Inputs.{IsLibraryFile, IsDeckFile, IsLayout, HasDevices, IsDeviceTechnology};
ghost use Rattle.openram_cli.specs.Inputs.{AreLeafCells, AreInputs, AreSound};
ghost use Rattle.command_steps.specs.Outcome.{UnlessMemory, is_read_failed, is_usage_outcome};
ghost use Rattle.command_steps.specs.Reading.{HasRead};

use crate::command::{Inspection, LayoutWords};
use build_command::read_kit_under;
use command_steps::{read_file, read_technology, read_technology_under, with_ending};
use gds_library::{Library, read_gds};
use leaf_tables::Kit;
use netlist::Deck;
use or_geom::Name;
use or_host::Store;
use reply_lines::Refusal;
use spice_text::read_spice;
use std::alloc::Global;
use tech_rules::Tech;

/// A technology and a library, of which one structure is looked at.
#[derive(Drop)]
pub struct LayoutInput {
    pub tech: Tech,
    pub lib: Library,
    pub top: Name,
}

/// A technology and its leaf cells: their layouts and their subcircuits.
#[derive(Drop)]
pub struct LeafCells {
    pub tech: Tech,
    pub lib: Library,
    pub deck: Deck,
}

/// What the files of a command hold, each decoded: all that its answer depends on.
#[derive(Drop)]
pub enum Inputs {
    Check(LayoutInput),
    Nets(LayoutInput),
    Compare { layout: LayoutInput, deck: Deck },
    Devices(LeafCells),
    Kit(Kit),
}

fn read_library<S: Store>(alloc: Global, name: &str, store: &mut S) -> Result<Library, Refusal>
    ensures read { HasRead (λ files. IsLibraryFile files name.now) result (S.state store.old) (S.state store.new) }
    ensures good { IfOk result IsWritable }
    ensures words { is_usage_outcome result ≡ false }
{
    let bytes = read_file(alloc, name, store)?;
    read_gds(alloc, bytes.as_slice()).map_err(Refusal::Gds)
}

fn read_deck<S: Store>(alloc: Global, name: &str, store: &mut S) -> Result<Deck, Refusal>
    ensures read { HasRead (λ files. IsDeckFile files name.now) result (S.state store.old) (S.state store.new) }
    ensures words { is_usage_outcome result ≡ false }
{
    let bytes = read_file(alloc, name, store)?;
    read_spice(alloc, bytes.as_slice()).map_err(Refusal::Spice)
}

fn read_layout<S: Store>(
    alloc: Global,
    words: LayoutWords<'_>,
    store: &mut S,
) -> Result<LayoutInput, Refusal>
    ensures read { HasRead (λ files. IsLayout files (told_layout words.entry)) result (S.state store.old)
        (S.state store.new) }
    ensures tech { IfOk result (λ layout. IsTech layout.tech) }
    ensures writable { IfOk result (λ layout. IsWritable layout.lib) }
    ensures words { is_usage_outcome result ≡ false }
{
    let tech = read_technology(alloc, words.tech, store)?;
    let lib = read_library(alloc, words.gds, store)?;
    let top = Name::from_bytes(alloc, words.top.as_bytes())?;
    Ok(LayoutInput { tech, lib, top })
}

/// A technology that has kinds of transistors.
fn with_devices(tech: Tech) -> Result<Tech, Refusal>
    ensures devices { UnlessMemory (HasDevices tech) result }
    ensures good { IfOk result (λ same. same ≡ tech) }
    ensures read { is_read_failed result ≡ false }
    ensures words { is_usage_outcome result ≡ false }
{
    if tech.devices.is_empty() {
        return Err(Refusal::NoDevices);
    }
    Ok(tech)
}

/// The technology of this name, which is refused before anything else is read where it has no kind of transistors.
fn read_device_technology<S: Store>(
    alloc: Global,
    name: &str,
    store: &mut S,
) -> Result<Tech, Refusal>
    ensures read { HasRead (λ files. IsDeviceTechnology files name.now) result (S.state store.old) (S.state store.new) }
    ensures good { IfOk result IsTech }
    ensures words { is_usage_outcome result ≡ false }
{
    let tech = read_technology_under(alloc, name, store)?;
    with_devices(tech)
}

/// The library in the file of this name and `.gds`.
fn read_library_under<S: Store>(
    alloc: Global,
    name: &str,
    store: &mut S,
) -> Result<Library, Refusal>
    ensures read { HasRead (λ files. IsLibraryFile files (name.now ++ codes ".gds")) result (S.state store.old)
        (S.state store.new) }
    ensures good { IfOk result IsWritable }
    ensures words { is_usage_outcome result ≡ false }
{
    let file = with_ending(alloc, name, ".gds")?;
    read_library(alloc, file.as_str(), store)
}

/// The deck in the file of this name and `.sp`.
fn read_deck_under<S: Store>(alloc: Global, name: &str, store: &mut S) -> Result<Deck, Refusal>
    ensures read { HasRead (λ files. IsDeckFile files (name.now ++ codes ".sp")) result (S.state store.old)
        (S.state store.new) }
    ensures words { is_usage_outcome result ≡ false }
{
    let file = with_ending(alloc, name, ".sp")?;
    read_deck(alloc, file.as_str(), store)
}

/// The leaf cells of the technology of this name.
fn read_leaf_cells<S: Store>(alloc: Global, name: &str, store: &mut S) -> Result<LeafCells, Refusal>
    ensures read { HasRead (λ files. AreLeafCells files name.now) result (S.state store.old) (S.state store.new) }
    ensures tech { IfOk result (λ cells. IsTech cells.tech) }
    ensures writable { IfOk result (λ cells. IsWritable cells.lib) }
    ensures words { is_usage_outcome result ≡ false }
{
    let tech = read_device_technology(alloc, name, store)?;
    let lib = read_library_under(alloc, name, store)?;
    let deck = read_deck_under(alloc, name, store)?;
    Ok(LeafCells { tech, lib, deck })
}

/// Reads the files that a question names, in the order in which it names them, and decodes each before the next is
/// read. Nothing else reads the store.
pub fn read_inputs<S: Store>(
    alloc: Global,
    asked: Inspection<'_>,
    store: &mut S,
) -> Result<Inputs, Refusal>
    ensures read { HasRead (λ files. AreInputs files (told_inspection asked.entry)) result (S.state store.old)
        (S.state store.new) }
    ensures sound { IfOk result AreSound }
    ensures words { is_usage_outcome result ≡ false }
{
    match asked {
        Inspection::Check(words) => Ok(Inputs::Check(read_layout(alloc, words, store)?)),
        Inspection::Nets(words) => Ok(Inputs::Nets(read_layout(alloc, words, store)?)),
        Inspection::Compare { layout, netlist } => {
            let layout = read_layout(alloc, layout, store)?;
            let deck = read_deck(alloc, netlist, store)?;
            Ok(Inputs::Compare { layout, deck })
        }
        Inspection::Devices(name) => Ok(Inputs::Devices(read_leaf_cells(alloc, name, store)?)),
        Inspection::Kit(name) => Ok(Inputs::Kit(read_kit_under(alloc, name, store)?)),
    }
}
