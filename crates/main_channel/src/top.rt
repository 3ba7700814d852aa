ghost use Rattle.std.specs.Prelude.{◌≡◌, ◌++◌, ◌-◌, ◌≤◌, ◌^◌, ℕ, ℤ, pos, ◌+ℤ◌, ◌*ℤ◌, ◌≤ℤ◌, Some, length, codes, IfOk};
ghost use Rattle.std.specs.Prelude.{OnOk};
ghost use Rattle.cell_roles.specs.declared.role.Role.TheVariants.{Sense};
ghost use Rattle.tech_rules.specs.declared.tech.Wire.{Wire};
ghost use Rattle.wire_drawing.specs.Drawing.{pitch};
ghost use Rattle.leaf_tables.specs.Kits.{IsKit};
ghost use Rattle.sram_netlist.specs.Names.{with_index};
ghost use Rattle.sram_netlist.specs.InstanceList.{tabulate_lists};
ghost use Rattle.sram_netlist.specs.Numbers.{ArePlanNumbers};
ghost use Rattle.sram_plan.specs.PlanNumbers.{numbers_of, organization};
ghost use Rattle.port_lists.specs.Spelled.{spelled};
ghost use Rattle.floorplan.specs.LeafSides.{leaf_width};
ghost use Rattle.floorplan.specs.FloorplanNumbers.{IsUpTo, IsNearFloorplan};
ghost use Rattle.main_channel.specs.Banks.{bank_rail_pins, write_pins, written_pins, slice_pins, bank_pins};
ghost use Rattle.main_channel.specs.Banks.{columns_begin};
ghost use Rattle.leaf_tables.specs.NearLeaf.{IsLeafLength};
ghost use Rattle.main_channel.specs.Leaves.{pin_begin};
ghost use Rattle.main_channel.specs.Names.{rail_names, enable_name};
ghost use Rattle.main_channel.specs.Numbers.{found_number, IsNetNumbering};
ghost use Rattle.main_channel.specs.Pins.{AreMainPins, numbered_net};

use crate::names::NetNumbers;
use crate::pins::{add_leaf_pin, add_pin};
use cell_roles::Role;
use channel_router::ChannelPin;
use floorplan::FloorplanNumbers;
use leaf_tables::{Kit, leaf_of, wire_of};
use or_geom::{Items, Memory, Name};
use port_lists::{
    NameList, Spelling, groups_of, row_gate_role, sense_enable, spell, word_line_enable,
};
use sram_plan::Plan;
use std::alloc::Global;

/// Adds the pins of the rails and of the write and sense cells of all banks, bank by bank.
pub fn add_bank_pins(
    alloc: Global,
    kit: &Kit,
    plan: &Plan,
    floorplan: &FloorplanNumbers,
    numbers: &NetNumbers,
    pins: &mut Vec<ChannelPin>,
) -> Result<(), Memory>
    requires kit { IsKit kit.now }
    requires plan { ArePlanNumbers (numbers_of plan.now) }
    requires near { IsNearFloorplan floorplan.now }
    ensures is { OnOk result ((wire : Wire) → kit.now.tech.wire ≡ Some wire
        → pins.new.items ≡ pins.old.items ++ tabulate_lists plan.now.banks
        (bank_pins (pin_begin kit.now) (leaf_width kit.now) (found_number numbers.now) (organization plan.now)
        (pitch wire) floorplan.now.row_x floorplan.now.bank_width)) }
    ensures main { OnOk result ((nets : ℕ) → IsNetNumbering nets (found_number numbers.now)
        → AreMainPins nets pins.old.items → AreMainPins nets pins.new.items) }
{
    let pitch = pitch_of(kit);
    let columns_x = columns_of(alloc, kit, plan, floorplan)?;
    for bank in 0..plan.banks {
        let x = bank_x(bank, floorplan.bank_width);
        let names = rail_names(alloc, plan, bank)?;
        add_rail_pins(numbers, &names, x, pitch, pins)?;
        add_slice_pins(alloc, kit, plan, numbers, bank, x + columns_x, pins)?;
    }
    Ok(())
}

/// Where a bank begins, if the next one begins `width` behind it.
fn bank_x(bank: u32, width: i64) -> i64
    requires bank { bank ≤ 3 }
    requires width { IsUpTo (2 ^ 25) width }
    ensures is { result ≡ pos bank *ℤ width }
    ensures above { pos 0 ≤ℤ result }
    ensures below { result ≤ℤ pos 100663296 }
{
    i64::from(bank) * width
}

/// The distance from a wire's edge to the same edge of the next wire.
fn pitch_of(kit: &Kit) -> i64
    requires { IsKit kit.now }
    ensures is { (wire : Wire) → kit.now.tech.wire ≡ Some wire → result ≡ pitch wire }
    ensures near { IsUpTo (2 ^ 17) result }
{
    let wire = wire_of(kit);
    wire.width + wire.space
}

/// Where the columns of the first bank begin: behind the gate and the driver of a row.
fn columns_of(
    alloc: Global,
    kit: &Kit,
    plan: &Plan,
    floorplan: &FloorplanNumbers,
) -> Result<i64, Memory>
    requires kit { IsKit kit.now }
    requires plan { ArePlanNumbers (numbers_of plan.now) }
    requires near { IsNearFloorplan floorplan.now }
    ensures is { IfOk result (λ x. x ≡ columns_begin (leaf_width kit.now) (organization plan.now) floorplan.now.row_x) }
    ensures near { IfOk result (IsUpTo (2 ^ 24)) }
{
    let groups = groups_of(alloc, plan)?;
    let gate = leaf_of(kit, row_gate_role(&groups));
    let driver = leaf_of(kit, Role::Driver);
    Ok(floorplan.row_x + gate.width + driver.width)
}

/// The names of the nets on a bank's rails, in the order of the rails.
fn rail_names(alloc: Global, plan: &Plan, bank: u32) -> Result<Items<Name>, Memory>
    requires { ArePlanNumbers (numbers_of plan.now) }
    ensures { IfOk result (λ names. names ≡ rail_names (organization plan.now) bank) }
{
    let groups = groups_of(alloc, plan)?;
    let mut names = NameList::new(alloc);
    names.add_predecode_lines(&groups)?;
    names.add_all(&[
        word_line_enable(plan, bank),
        sense_enable(plan, bank),
        Spelling::Word(b"clkb"),
    ])?;
    names.add_column_choices(plan)?;
    Ok(names.into_items())
}

/// Adds the pins of a bank's rails. The bank begins at x.
fn add_rail_pins(
    numbers: &NetNumbers,
    names: &[Name],
    x: i64,
    pitch: i64,
    pins: &mut Vec<ChannelPin>,
) -> Result<(), Memory>
    requires few { length names.now ≤ 64 }
    requires x { IsUpTo (2 ^ 27) x }
    requires pitch { IsUpTo (2 ^ 17) pitch }
    ensures is { OnOk result (pins.new.items
        ≡ pins.old.items ++ bank_rail_pins (found_number numbers.now) names.now x pitch) }
    ensures main { OnOk result ((nets : ℕ) → IsNetNumbering nets (found_number numbers.now)
        → AreMainPins nets pins.old.items → AreMainPins nets pins.new.items) }
{
    for rail in 0..names.len() {
        let left = x + pitches(rail as u32 + 1, pitch);
        add_pin(numbers, names[rail].as_bytes(), left, pins)?;
    }
    Ok(())
}

/// So many pitches.
fn pitches(count: u32, pitch: i64) -> i64
    requires count { count ≤ 64 }
    requires pitch { IsUpTo (2 ^ 17) pitch }
    ensures is { result ≡ pos count *ℤ pitch }
    ensures above { pos 0 ≤ℤ result }
    ensures below { result ≤ℤ pos 8388608 }
{
    i64::from(count) * pitch
}

/// Adds the pins of a bank's write and sense cells, bit by bit. Its columns begin at x.
fn add_slice_pins(
    alloc: Global,
    kit: &Kit,
    plan: &Plan,
    numbers: &NetNumbers,
    bank: u32,
    x: i64,
    pins: &mut Vec<ChannelPin>,
) -> Result<(), Memory>
    requires kit { IsKit kit.now }
    requires plan { ArePlanNumbers (numbers_of plan.now) }
    requires x { IsUpTo (2 ^ 27) x }
    ensures is { OnOk result (pins.new.items ≡ pins.old.items ++ slice_pins (pin_begin kit.now) (leaf_width kit.now)
        (found_number numbers.now) (organization plan.now) bank x) }
    ensures main { OnOk result ((nets : ℕ) → IsNetNumbering nets (found_number numbers.now)
        → AreMainPins nets pins.old.items → AreMainPins nets pins.new.items) }
{
    let width = leaf_of(kit, Role::Bitcell).width;
    for bit in 0..plan.word_size {
        let left = x + columns_width(bit * plan.wpr, width);
        let slice = Slice { bank, bit, x: left };
        add_write_pins(alloc, kit, plan, numbers, slice, pins)?;
        add_sense_pin(alloc, kit, numbers, bit, left, pins)?;
    }
    Ok(())
}

/// The width of so many columns.
fn columns_width(columns: u32, width: i64) -> i64
    requires columns { columns ≤ 256 }
    requires width { IsLeafLength width }
    ensures is { result ≡ pos columns *ℤ width }
    ensures above { pos 0 ≤ℤ result }
    ensures below { result ≤ℤ pos 16777216 }
{
    i64::from(columns) * width
}

/// A bit of the word in a bank, and where its cells begin.
#[derive(Clone, Copy)]
struct Slice {
    bank: u32,
    bit: u32,
    x: i64,
}

/// Adds the pins of a bit's write cell, its data and its enable; where nothing is written there is none.
fn add_write_pins(
    alloc: Global,
    kit: &Kit,
    plan: &Plan,
    numbers: &NetNumbers,
    slice: Slice,
    pins: &mut Vec<ChannelPin>,
) -> Result<(), Memory>
    requires kit { IsKit kit.now }
    requires plan { ArePlanNumbers (numbers_of plan.now) }
    requires x { IsUpTo (2 ^ 28 - 65536) slice.x }
    ensures is { OnOk result (pins.new.items ≡ pins.old.items ++ written_pins plan.now.write_size
        (write_pins (pin_begin kit.now) (found_number numbers.now) (organization plan.now) slice.bank slice.bit
        slice.x)) }
    ensures main { OnOk result ((nets : ℕ) → IsNetNumbering nets (found_number numbers.now)
        → AreMainPins nets pins.old.items → AreMainPins nets pins.new.items) }
{
    if plan.write_size == 0 {
        return Ok(());
    }
    let data = spell(alloc, Spelling::Numbered(b"d", slice.bit))?;
    add_leaf_pin(kit, numbers, data.as_bytes(), Role::Write, 0, slice.x, pins)?;
    let enable = spell(alloc, write_enable(plan, slice.bank, slice.bit))?;
    add_leaf_pin(
        kit,
        numbers,
        enable.as_bytes(),
        Role::Write,
        3,
        slice.x,
        pins,
    )?;
    Ok(())
}

/// Adds the pin of the output of a sense cell that begins at x.
fn add_sense_pin(
    alloc: Global,
    kit: &Kit,
    numbers: &NetNumbers,
    bit: u32,
    x: i64,
    pins: &mut Vec<ChannelPin>,
) -> Result<(), Memory>
    requires kit { IsKit kit.now }
    requires x { IsUpTo (2 ^ 28 - 65536) x }
    ensures is { OnOk result (pins.new.items ≡ pins.old.items ++ numbered_net (found_number numbers.now)
        (with_index (codes "dout0") bit) (x +ℤ pin_begin kit.now Sense 2)) }
    ensures main { OnOk result ((nets : ℕ) → IsNetNumbering nets (found_number numbers.now)
        → AreMainPins nets pins.old.items → AreMainPins nets pins.new.items) }
{
    let output = spell(alloc, Spelling::Indexed(b"dout0", bit))?;
    add_leaf_pin(kit, numbers, output.as_bytes(), Role::Sense, 2, x, pins)?;
    Ok(())
}

/// The write enable of a bit of the word: that of all banks and bits where there are one bank and no masks.
fn write_enable(plan: &Plan, bank: u32, bit: u32) -> Spelling
    requires { ArePlanNumbers (numbers_of plan.now) }
    ensures { spelled result ≡ enable_name (organization plan.now) bank bit }
{
    if plan.masks > 0 {
        return Spelling::NumberedTwice(b"we", bank, bit / plan.write_size);
    }
    if plan.bank_bits > 0 {
        return Spelling::NumberedTwice(b"we", bank, 0);
    }
    Spelling::Word(b"wen")
}
