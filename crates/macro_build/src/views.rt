ghost use Rattle.std.specs.Prelude.{◌≡◌, ◌++◌, ◌∷◌, [], take, IfOk, IsTrue, if◌then◌else◌};
ghost use Rattle.gds_stream.specs.Canonical.{canonical};
ghost use Rattle.spice_text.specs.Appended.{appended, with_lf};
ghost use Rattle.leaf_tables.specs.Kits.{IsKit};
ghost use Rattle.port_lists.specs.Held.{held_of};
ghost use Rattle.sram_netlist.specs.Numbers.{ArePlanNumbers};
ghost use Rattle.sram_plan.specs.Config.{is_output_name};
ghost use Rattle.sram_plan.specs.PlanNumbers.{numbers_of, organization};
ghost use Rattle.sram_macro.specs.Leaves.{HasCellsFor, IsHeld};
ghost use Rattle.sram_macro.specs.Macro.{IsMacro};
ghost use Rattle.macro_build.specs.Built.{IsBuilt, IsSoundMacro};
ghost use Rattle.macro_build.specs.Memory.{AnswersFrom, FitsPlan};
ghost use Rattle.macro_build.specs.Verilog.{SpellsHeld, verilog_of};
ghost use Rattle.macro_build.specs.Written.{IsReadInLowerCase, IsReferenceNetlist, SpellCoveredLayout};
ghost use Rattle.macro_build.specs.Written.{SpellSoundLayout};

use crate::built::Built;
use crate::counts::leaf_count;
use crate::order::Order;
use gds_stream::write_gds;
use leaf_tables::Kit;
use macro_views::{lef_text, verilog_text};
use memory_laws::{runs_answer_numbers, runs_exist, runs_obey};
use or_geom::{Memory, Name};
use port_lists::Contents;
use rom_data::rom_verilog;
use rom_laws::roms_hold_words;
use rom_verilog_laws::rom_texts_are_memories;
use spice_text::write_spice;
use sram_macro::{Macro, macros_are_stated};
use sram_plan::Plan;
use sram_rows::{
    cells_are_names, rows_equal_netlist, written_subckts_are_read, written_subckts_are_writable,
};
use std::alloc::Global;
use verilog_laws::texts_are_memories;
use view_cover::lef_covers_layout;
use written_layout::writing_keeps_flat;

/// The bytes of the kit's netlist before its `.END`.
fn front_of(kit: &Kit) -> &[u8]
    ensures { result.now ≡ take kit.now.deck.used kit.now.text }
{
    let text = kit.text.as_slice();
    if kit.deck.used < text.len() as u64 {
        &text[..kit.deck.used as usize]
    } else {
        text
    }
}

/// Whether the last line has no end.
fn lacks_end(text: &[u8]) -> bool
    ensures { with_lf text.now ≡ (if result then text.now ++ 10 ∷ [] else text.now) }
{
    match text.last() {
        None => false,
        Some(last) => *last != b'\n',
    }
}

/// The kit's netlist before its `.END`, with an end to its last line.
fn kit_lines(alloc: Global, kit: &Kit) -> Result<Vec<u8>, Memory>
    ensures { IfOk result (λ lines. lines.items ≡ with_lf (take kit.now.deck.used kit.now.text)) }
{
    let mut lines = Vec::from_slice(alloc, front_of(kit))?;
    if lacks_end(&lines) {
        lines.push(b'\n')?;
    }
    Ok(lines)
}

/// The netlist: that of the kit, and the macro's subcircuits behind it.
fn joined_text(alloc: Global, order: &Order, made: &Macro) -> Result<Vec<u8>, Memory>
    requires kit { IsKit order.now.kit.now }
    requires plan { ArePlanNumbers (numbers_of order.now.plan.now) }
    requires name { IsTrue (is_output_name order.now.name.now) }
    requires made { IsMacro order.now.kit.now order.now.plan.now (held_of order.now.contents)
        order.now.name.now made.now }
    ensures { IfOk result (λ text. text.items
        ≡ appended order.now.kit.now.deck order.now.kit.now.text made.now.deck.subckts) }
{
    // These calls do nothing when the program runs: their contracts are the laws that the subcircuits can be written.
    cells_are_names();
    written_subckts_are_writable();
    let mut text = kit_lines(alloc, order.kit)?;
    text.extend_from_slice(&write_spice(alloc, made.deck.subckts.as_slice())?)?;
    Ok(text)
}

/// The same, which is read as the reference netlist.
fn spice_text(alloc: Global, order: &Order, made: &Macro) -> Result<Vec<u8>, Memory>
    requires kit { IsKit order.now.kit.now }
    requires plan { ArePlanNumbers (numbers_of order.now.plan.now) }
    requires name { IsTrue (is_output_name order.now.name.now) }
    requires made { IsMacro order.now.kit.now order.now.plan.now (held_of order.now.contents)
        order.now.name.now made.now }
    ensures text { IfOk result (λ text. text.items
        ≡ appended order.now.kit.now.deck order.now.kit.now.text made.now.deck.subckts) }
    ensures read { IfOk result (λ text. IsReadInLowerCase order.now.kit.now order.now.plan.now
        (held_of order.now.contents) order.now.name.now text.items) }
    ensures netlist { IfOk result (λ text. IsReferenceNetlist order.now.kit.now order.now.plan.now
        (held_of order.now.contents) order.now.name.now text.items) }
{
    // So do these: that the subcircuits are read back, and that they are the reference netlist.
    cells_are_names();
    written_subckts_are_read();
    rows_equal_netlist();
    Ok(joined_text(alloc, order, made)?)
}

/// The layout's bytes.
fn gds_bytes(alloc: Global, _order: &Order, made: &Macro) -> Result<Vec<u8>, Memory>
    requires kit { IsKit _order.now.kit.now }
    requires plan { ArePlanNumbers (numbers_of _order.now.plan.now) }
    requires held { IsHeld _order.now.kit.now _order.now.plan.now (held_of _order.now.contents) }
    requires sound { IsSoundMacro _order.now.kit.now _order.now.plan.now (held_of _order.now.contents)
        _order.now.name.now made.now }
    ensures bytes { IfOk result (λ bytes. bytes.items ≡ canonical made.now.lib) }
    ensures layout { IfOk result (λ bytes. SpellSoundLayout _order.now.kit.now _order.now.plan.now
        (held_of _order.now.contents) _order.now.name.now bytes.items) }
    ensures covered { IfOk result (λ bytes. SpellCoveredLayout _order.now.kit.now _order.now.name.now made.now.view
        bytes.items) }
{
    // These calls do nothing when the program runs: their contracts are the laws that what is written is flat as what
    // was checked, that this is the stated layout, which the boxes of the LEF cover, and that its rows are those of the
    // reference netlist.
    writing_keeps_flat();
    macros_are_stated();
    lef_covers_layout();
    rows_equal_netlist();
    Ok(write_gds(alloc, &made.lib)?)
}

/// The reference netlist answers as it has to. It does nothing when the program runs: so says its contract.
fn netlist_answers(_plan: &Plan, _contents: Contents<'_>)
    requires plan { ArePlanNumbers (numbers_of _plan.now) }
    requires held { FitsPlan _plan.now (held_of _contents) }
    ensures { AnswersFrom (organization _plan.now) (held_of _contents.entry) }
{
    runs_exist();
    runs_answer_numbers();
    runs_obey();
    roms_hold_words();
}

/// The Verilog module.
fn verilog_of(
    alloc: Global,
    plan: &Plan,
    name: &Name,
    contents: Contents<'_>,
) -> Result<Vec<u8>, Memory>
    requires plan { ArePlanNumbers (numbers_of plan.now) }
    requires held { FitsPlan plan.now (held_of contents) }
    ensures { IfOk result (λ text. text.items ≡ verilog_of plan.now (held_of contents.entry) name.now) }
{
    match contents {
        Contents::Stored => verilog_text(alloc, plan, name),
        Contents::Fixed(words) => rom_verilog(alloc, plan, name, words),
    }
}

/// The same, which spells a memory.
fn behaviour(
    alloc: Global,
    plan: &Plan,
    name: &Name,
    contents: Contents<'_>,
) -> Result<Vec<u8>, Memory>
    requires plan { ArePlanNumbers (numbers_of plan.now) }
    requires name { IsTrue (is_output_name name.now) }
    requires held { FitsPlan plan.now (held_of contents) }
    ensures text { IfOk result (λ text. text.items ≡ verilog_of plan.now (held_of contents.entry) name.now) }
    ensures memory { IfOk result (λ text. SpellsHeld (organization plan.now) (held_of contents.entry) text.items) }
{
    // These calls do nothing when the program runs: their contracts are the laws of what the text spells.
    texts_are_memories();
    rom_texts_are_memories();
    Ok(verilog_of(alloc, plan, name, contents)?)
}

/// The views of a sound macro, and what is told of it.
pub fn views(alloc: Global, order: &Order, made: &Macro) -> Result<Built, Memory>
    requires kit { IsKit order.now.kit.now }
    requires plan { ArePlanNumbers (numbers_of order.now.plan.now) }
    requires name { IsTrue (is_output_name order.now.name.now) }
    requires held { FitsPlan order.now.plan.now (held_of order.now.contents) }
    requires cells { HasCellsFor order.now.kit.now (held_of order.now.contents) }
    requires sound { IsSoundMacro order.now.kit.now order.now.plan.now (held_of order.now.contents)
        order.now.name.now made.now }
    ensures { IfOk result (IsBuilt order.now.kit.now order.now.plan.now (held_of order.now.contents)
        order.now.name.now) }
{
    netlist_answers(order.plan, order.contents);
    let spice = spice_text(alloc, order, made)?;
    let gds = gds_bytes(alloc, order, made)?;
    let lef = lef_text(alloc, &made.view)?;
    let verilog = behaviour(alloc, order.plan, order.name, order.contents)?;
    Ok(Built {
        spice,
        gds,
        lef,
        verilog,
        tracks: made.tracks,
        leaves: leaf_count(order.plan),
        width: made.view.width,
        height: made.view.height,
    })
}
