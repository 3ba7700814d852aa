ghost use Rattle.std.specs.Prelude.{◌≡◌, ◌<◌, ◌≤◌, ◌*◌, ◌++◌, pos, ◌-ℤ◌, IfOk, OnOk};
ghost use Rattle.leaf_tables.specs.Kits.{IsKit};
ghost use Rattle.sram_netlist.specs.Organization.{columns_of, inputs_of, words_per_row};
ghost use Rattle.sram_netlist.specs.InstanceList.{tabulate};
ghost use Rattle.sram_netlist.specs.Numbers.{ArePlanNumbers};
ghost use Rattle.sram_plan.specs.PlanNumbers.{numbers_of, organization};
ghost use Rattle.macro_layout.specs.Places.{Floorplan};
ghost use Rattle.macro_layout.specs.Cells.{data_cell, write_at, sense_at, column_at, column_leaf, leaf_in_cell};
ghost use Rattle.floorplan.specs.LayoutOfKit.{layout_kit};

use cell_builder::{DrawnCell, PlacedInstance};
use cell_roles::Role;
use floorplan::{bare_cell, column_x, leaf_at, leaf_width};
use leaf_tables::Kit;
use or_geom::{Memory, Name};
use port_lists::Spelling;
use sram_plan::{Plan, inputs_of};
use std::alloc::Global;

/// The cell of the data: a sense cell for each bit of the word, a write cell where it is written, and a multiplexer, or
/// a tie where a row has one word, for each column. The sense cells stand `sense_y` above the cell's lower edge, and
/// what the columns end in `column_y`, in nanometres. `name` is the macro's.
pub fn data_cell(
    alloc: Global,
    kit: &Kit,
    plan: &Plan,
    name: &Name,
    sense_y: i64,
    column_y: i64,
) -> Result<DrawnCell, Memory>
    requires kit { IsKit kit.now }
    requires plan { ArePlanNumbers (numbers_of plan.now) }
    ensures { IfOk result (λ cell. (floorplan : Floorplan) → sense_y ≡ floorplan.sense_y -ℤ floorplan.write_y
        → column_y ≡ floorplan.column_y -ℤ floorplan.write_y
        → cell ≡ data_cell (organization plan.now) (layout_kit kit.now) floorplan name.now) }
{
    let mut instances = Vec::new(alloc);
    add_writes(alloc, kit, plan, &mut instances)?;
    add_senses(alloc, kit, plan, sense_y, &mut instances)?;
    add_columns(alloc, kit, plan, column_y, &mut instances)?;
    Ok(bare_cell(alloc, name, b"_data", instances)?)
}

/// Where the cells of a bit of the word begin, whose columns are so wide.
fn slice_x(plan: &Plan, bit: u32, width: u32) -> u32
    requires plan { ArePlanNumbers (numbers_of plan.now) }
    requires bit { bit < plan.now.word_size }
    requires width { width ≤ 65536 }
    ensures { result ≡ (bit * words_per_row (organization plan.now)) * width }
{
    column_x(0, bit * plan.wpr, width)
}

/// Adds the write cells, bit by bit, where bits are written.
fn add_writes(
    alloc: Global,
    kit: &Kit,
    plan: &Plan,
    instances: &mut Vec<PlacedInstance>,
) -> Result<(), Memory>
    requires kit { IsKit kit.now }
    requires plan { ArePlanNumbers (numbers_of plan.now) }
    ensures { OnOk result (instances.new.items ≡ instances.old.items ++ tabulate (inputs_of (organization plan.now))
        (write_at (organization plan.now) (layout_kit kit.now))) }
{
    let width = leaf_width(kit, Role::Bitcell);
    for bit in 0..inputs_of(plan) {
        let x = slice_x(plan, bit, width);
        let name = Spelling::Numbered(b"xw", bit);
        instances.push(leaf_at(alloc, kit, Role::Write, name, x, 0)?)?;
    }
    Ok(())
}

/// Adds the sense cells, bit by bit, at this height.
fn add_senses(
    alloc: Global,
    kit: &Kit,
    plan: &Plan,
    y: i64,
    instances: &mut Vec<PlacedInstance>,
) -> Result<(), Memory>
    requires kit { IsKit kit.now }
    requires plan { ArePlanNumbers (numbers_of plan.now) }
    ensures { OnOk result ((floorplan : Floorplan) → y ≡ floorplan.sense_y -ℤ floorplan.write_y
        → instances.new.items ≡ instances.old.items ++ tabulate plan.now.word_size
        (sense_at (organization plan.now) (layout_kit kit.now) floorplan)) }
{
    let width = leaf_width(kit, Role::Bitcell);
    for bit in 0..plan.word_size {
        let x = slice_x(plan, bit, width);
        let name = Spelling::Numbered(b"xs", bit);
        instances.push(leaf_at(alloc, kit, Role::Sense, name, x, y)?)?;
    }
    Ok(())
}

/// Adds what the columns end in, at this height: multiplexers, or ties where a row has one word.
fn add_columns(
    alloc: Global,
    kit: &Kit,
    plan: &Plan,
    y: i64,
    instances: &mut Vec<PlacedInstance>,
) -> Result<(), Memory>
    requires kit { IsKit kit.now }
    requires plan { ArePlanNumbers (numbers_of plan.now) }
    ensures { OnOk result ((floorplan : Floorplan) → y ≡ floorplan.column_y -ℤ floorplan.write_y
        → instances.new.items ≡ instances.old.items ++ tabulate (columns_of (organization plan.now))
        (column_at (organization plan.now) (layout_kit kit.now) floorplan)) }
{
    let width = leaf_width(kit, Role::Bitcell);
    for column in 0..plan.columns {
        let x = column_x(0, column, width);
        instances.push(column_leaf(alloc, kit, plan, column, x, y)?)?;
    }
    Ok(())
}

/// What a column ends in.
fn column_leaf(
    alloc: Global,
    kit: &Kit,
    plan: &Plan,
    column: u32,
    x: u32,
    y: i64,
) -> Result<PlacedInstance, Memory>
    ensures { IfOk result (λ i. i ≡ leaf_in_cell (organization plan.now) (layout_kit kit.now)
        (column_leaf plan.now.col_bits 0 column) (pos x) y) }
{
    if plan.col_bits == 0 {
        let tie = Spelling::Numbered(b"xt", column);
        return Ok(leaf_at(alloc, kit, Role::Tie, tie, x, y)?);
    }
    let multiplexer = Spelling::Numbered(b"xm", column);
    Ok(leaf_at(alloc, kit, Role::Mux, multiplexer, x, y)?)
}
