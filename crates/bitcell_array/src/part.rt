ghost use Rattle.std.specs.Prelude.{◌≡◌, ◌++◌, ◌<◌, ◌≤◌, ◌+◌, ◌*◌, ◌^◌, length, pos, IfOk, IfErr, OnOk};
ghost use Rattle.leaf_tables.specs.Kits.{IsKit};
ghost use Rattle.leaf_tables.specs.declared.part.PartFault.TheVariants as part_fault;
ghost use Rattle.sram_netlist.specs.Numbers.{ArePlanNumbers};
ghost use Rattle.sram_plan.specs.PlanNumbers.{numbers_of, organization};
ghost use Rattle.port_lists.specs.Cells.{cell_in};
ghost use Rattle.macro_layout.specs.LayoutKit.{LayoutKit};
ghost use Rattle.floorplan.specs.Sides.{AreLeafSides, AreSidesOf};
ghost use Rattle.floorplan.specs.LayoutOfKit.{layout_kit};
ghost use Rattle.port_lists.specs.Contents.{IsContents, bit_cells};
ghost use Rattle.bitcell_array.specs.ArrayPart.{stored, row_cells, with_array_cells, row_subckts, array_subckts};
ghost use Rattle.bitcell_array.specs.ArrayPart.{with_array_subckts, array_width, array_height, array_pins};
ghost use Rattle.part_edges.specs.PartPins.{AreEdgesOf};

use crate::array_cells::{array_cell, pre_cell};
use crate::array_subckts::{array_subckt, precharge_subckt};
use crate::columns::column_edges;
use crate::row_cell::row_cell;
use crate::row_subckt::row_subckt;
use cell_builder::Cells;
use floorplan::{LeafSides, sides_of};
use leaf_tables::{Edges, Kit, PartFault};
use netlist::{Deck, Subckt};
use or_geom::{Items, Memory, Name};
use port_lists::{Contents, row_kinds};
use sram_plan::Plan;
use std::alloc::Global;

/// Adds the cells of a memory's rows: a row, the array of rows, and the precharge cells; and their subcircuits. Answers
/// where nets come to the array's edges, in nanometres from the lower left corner of row 0. `name` is the macro's.
/// After a refusal, which is for want of memory, a part of it may be added.
pub fn build(
    alloc: Global,
    kit: &Kit,
    plan: &Plan,
    name: &Name,
    cells: &mut Cells,
    deck: &mut Deck,
) -> Result<Edges, PartFault>
    requires kit { IsKit kit.now }
    requires plan { ArePlanNumbers (numbers_of plan.now) }
    requires few { length cells.old.cells < 2 ^ 31 }
    ensures cells { OnOk result (cells.new
        ≡ with_array_cells (organization plan.now) (layout_kit kit.now) (stored (cell_in kit.now.tech.roles))
        name.now cells.old) }
    ensures deck { OnOk result (deck.new ≡ with_array_subckts (organization plan.now)
        (cell_in kit.now.tech.roles) name.now deck.old) }
    ensures edges { IfOk result (AreEdgesOf (array_pins kit.now (organization plan.now))) }
    ensures width { IfOk result (λ edges. edges.width
        ≡ pos (array_width (organization plan.now) (layout_kit kit.now))) }
    ensures height { IfOk result (λ edges. edges.height
        ≡ pos (array_height (organization plan.now) (layout_kit kit.now))) }
    ensures memory { IfErr result (λ fault. fault ≡ part_fault.Memory) }
{
    add_cells(alloc, kit, plan, name, Contents::Stored, cells)?;
    add_subckts(alloc, kit, plan, name, Contents::Stored, &mut deck.subckts)?;
    Ok(edges_of(alloc, kit, plan)?)
}

/// Adds the cells of the rows, from the lowest up. Rows that are alike are one cell.
fn draw_rows(
    alloc: Global,
    kit: &Kit,
    plan: &Plan,
    name: &Name,
    contents: Contents<'_>,
    cells: &mut Cells,
) -> Result<(), Memory>
    requires kit { IsKit kit.now }
    requires plan { ArePlanNumbers (numbers_of plan.now) }
    requires contents { IsContents (organization plan.now) contents }
    requires few { length cells.old.cells < 2 ^ 31 }
    ensures adopted { OnOk result (cells.new.adopted ≡ cells.old.adopted) }
    ensures cells { OnOk result (cells.new.cells ≡ cells.old.cells
        ++ row_cells (organization plan.now) (layout_kit kit.now)
        (bit_cells kit.now.tech.roles (organization plan.now) contents.entry) name.now) }
{
    for row in 0..row_kinds(plan, contents) {
        cells.draw(row_cell(alloc, kit, plan, name, contents, row)?)?;
    }
    Ok(())
}

/// Adds the cells of a memory's rows, which hold these contents, of the array of rows, and of the precharge. `name` is
/// the macro's.
pub fn add_cells(
    alloc: Global,
    kit: &Kit,
    plan: &Plan,
    name: &Name,
    contents: Contents<'_>,
    cells: &mut Cells,
) -> Result<(), Memory>
    requires kit { IsKit kit.now }
    requires plan { ArePlanNumbers (numbers_of plan.now) }
    requires contents { IsContents (organization plan.now) contents }
    requires few { length cells.old.cells < 2 ^ 31 }
    ensures { OnOk result (cells.new ≡ with_array_cells (organization plan.now) (layout_kit kit.now)
        (bit_cells kit.now.tech.roles (organization plan.now) contents.entry) name.now cells.old) }
{
    draw_rows(alloc, kit, plan, name, contents, cells)?;
    cells.draw(array_cell(alloc, kit, plan, name, contents)?)?;
    cells.draw(pre_cell(alloc, kit, plan, name)?)?;
    Ok(())
}

/// Adds the subcircuits of the rows, from the lowest up. Rows that are alike have one.
fn add_row_subckts(
    alloc: Global,
    kit: &Kit,
    plan: &Plan,
    name: &Name,
    contents: Contents<'_>,
    subckts: &mut Items<Subckt>,
) -> Result<(), Memory>
    requires plan { ArePlanNumbers (numbers_of plan.now) }
    requires contents { IsContents (organization plan.now) contents }
    ensures { OnOk result (subckts.new ≡ subckts.old
        ++ row_subckts (organization plan.now) (cell_in kit.now.tech.roles)
        (bit_cells kit.now.tech.roles (organization plan.now) contents.entry) name.now) }
{
    let roles = kit.tech.roles.as_slice();
    for row in 0..row_kinds(plan, contents) {
        subckts.push(row_subckt(alloc, plan, roles, name, contents, row)?)?;
    }
    Ok(())
}

/// Adds the subcircuits of a memory's rows, which hold these contents, of the array of rows, and of the precharge.
/// `name` is the macro's.
pub fn add_subckts(
    alloc: Global,
    kit: &Kit,
    plan: &Plan,
    name: &Name,
    contents: Contents<'_>,
    subckts: &mut Items<Subckt>,
) -> Result<(), Memory>
    requires plan { ArePlanNumbers (numbers_of plan.now) }
    requires contents { IsContents (organization plan.now) contents }
    ensures { OnOk result (subckts.new ≡ subckts.old
        ++ array_subckts (organization plan.now) (cell_in kit.now.tech.roles)
        (bit_cells kit.now.tech.roles (organization plan.now) contents.entry) name.now) }
{
    let roles = kit.tech.roles.as_slice();
    add_row_subckts(alloc, kit, plan, name, contents, subckts)?;
    subckts.push(array_subckt(alloc, plan, name, contents)?)?;
    subckts.push(precharge_subckt(alloc, plan, roles, name)?)?;
    Ok(())
}

/// The edges of the array: the bit lines of its columns, at both sides.
fn edges_of(alloc: Global, kit: &Kit, plan: &Plan) -> Result<Edges, Memory>
    requires kit { IsKit kit.now }
    requires plan { ArePlanNumbers (numbers_of plan.now) }
    ensures edges { IfOk result (AreEdgesOf (array_pins kit.now (organization plan.now))) }
    ensures width { IfOk result (λ edges. edges.width
        ≡ pos (array_width (organization plan.now) (layout_kit kit.now))) }
    ensures height { IfOk result (λ edges. edges.height
        ≡ pos (array_height (organization plan.now) (layout_kit kit.now))) }
{
    let sides = sides_of(alloc, kit, plan)?;
    Ok(Edges {
        top: column_edges(alloc, kit, plan, &sides)?,
        bottom: column_edges(alloc, kit, plan, &sides)?,
        width: i64::from(width_of(plan, &sides)),
        height: i64::from(height_of(plan, &sides)),
    })
}

/// The width of the array.
fn width_of(plan: &Plan, sides: &LeafSides) -> u32
    requires plan { ArePlanNumbers (numbers_of plan.now) }
    requires sides { AreLeafSides sides.now }
    ensures is { (kit : LayoutKit) → AreSidesOf (organization plan.now) kit sides.now
        → result ≡ array_width (organization plan.now) kit }
    ensures few { result ≤ 16908288 }
{
    sides.gate_width + sides.driver_width + product(plan.columns, sides.bit_width)
}

/// The height of the array.
fn height_of(plan: &Plan, sides: &LeafSides) -> u32
    requires plan { ArePlanNumbers (numbers_of plan.now) }
    requires sides { AreLeafSides sides.now }
    ensures is { (kit : LayoutKit) → AreSidesOf (organization plan.now) kit sides.now
        → result ≡ array_height (organization plan.now) kit }
    ensures few { result ≤ 16777216 }
{
    product(plan.rows, sides.bit_height)
}

/// So many times the side.
fn product(count: u32, side: u32) -> u32
    requires count { count ≤ 256 }
    requires side { side ≤ 65536 }
    ensures is { result ≡ count * side }
    ensures few { result ≤ 16777216 }
{
    count * side
}
