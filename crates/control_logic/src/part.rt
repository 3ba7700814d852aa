ghost use Rattle.std.specs.Prelude.{◌≡◌, ◌<◌, ◌^◌, length, pos, IfOk, IfErr, OnOk, OnErr};
ghost use Rattle.leaf_tables.specs.Kits.{IsKit};
ghost use Rattle.leaf_tables.specs.declared.part.PartFault.TheVariants as part_fault;
ghost use Rattle.sram_netlist.specs.Numbers.{ArePlanNumbers};
ghost use Rattle.sram_plan.specs.PlanNumbers.{numbers_of, organization};
ghost use Rattle.cell_builder.specs.CellList.{with_drawn};
ghost use Rattle.port_lists.specs.Cells.{cell_in};
ghost use Rattle.macro_layout.specs.Cells.{logic_row_cell};
ghost use Rattle.floorplan.specs.LayoutOfKit.{layout_kit};
ghost use Rattle.part_edges.specs.Additions.{with_subckt};
ghost use Rattle.part_edges.specs.PartPins.{AreEdgesOf};
ghost use Rattle.control_logic.specs.LogicPart.{IsLogicRow, logic_row_subckt, logic_pins, logic_width, logic_height};

use crate::cell::logic_row_cell;
use crate::row::{LogicRow, logic_row, row_width};
use crate::subckt::logic_subckt;
use cell_builder::{Cells, DrawnCell};
use cell_roles::Role;
use floorplan::leaf_height;
use leaf_tables::{Edges, Kit, PartFault};
use netlist::Deck;
use or_geom::{Memory, Name};
use part_edges::{add_part, edges_of};
use sram_plan::Plan;
use std::alloc::Global;

/// Adds the cell and the subcircuit of a memory's logic row. Answers where nets come to the row's edges, in nanometres
/// from its lower left corner. `name` is the macro's. Only memory may be wanting, and then nothing is added.
pub fn build(
    alloc: Global,
    kit: &Kit,
    plan: &Plan,
    name: &Name,
    cells: &mut Cells,
    deck: &mut Deck,
) -> Result<Edges, PartFault>
    requires kit { IsKit kit.now }
    requires plan { ArePlanNumbers (numbers_of plan.now) }
    requires few { length cells.old.cells < 2 ^ 31 }
    ensures cells { OnOk result (cells.new
        ≡ with_drawn (logic_row_cell (organization plan.now) (layout_kit kit.now) name.now) cells.old) }
    ensures deck { OnOk result (deck.new
        ≡ with_subckt (logic_row_subckt (organization plan.now) (cell_in kit.now.tech.roles) name.now) deck.old) }
    ensures edges { IfOk result (AreEdgesOf (logic_pins kit.now (organization plan.now))) }
    ensures width { IfOk result (λ edges. edges.width
        ≡ pos (logic_width (organization plan.now) (layout_kit kit.now))) }
    ensures height { IfOk result (λ edges. edges.height ≡ pos (logic_height (layout_kit kit.now))) }
    ensures memory { IfErr result (λ fault. fault ≡ part_fault.Memory) }
    ensures same_cells { OnErr result (cells.new ≡ cells.old) }
    ensures same_deck { OnErr result (deck.new ≡ deck.old) }
{
    let row = logic_row(alloc, kit, plan)?;
    let cell = logic_row_cell(alloc, kit, name, &row)?;
    let edges = row_edges(alloc, kit, plan, name, &row, &cell)?;
    let subckt = logic_subckt(alloc, kit, plan, name, row.gates)?;
    add_part(alloc, cell, subckt, cells, deck)?;
    Ok(edges)
}

/// The edges of the logic row, which is drawn as this cell.
fn row_edges(
    alloc: Global,
    kit: &Kit,
    plan: &Plan,
    name: &Name,
    row: &LogicRow,
    cell: &DrawnCell,
) -> Result<Edges, Memory>
    requires kit { IsKit kit.now }
    requires plan { ArePlanNumbers (numbers_of plan.now) }
    requires row { IsLogicRow (organization plan.now) (cell_in kit.now.tech.roles) row.now }
    requires cell { cell.now ≡ logic_row_cell (organization plan.now) (layout_kit kit.now) name.now }
    ensures edges { IfOk result (AreEdgesOf (logic_pins kit.now (organization plan.now))) }
    ensures width { IfOk result (λ edges. edges.width
        ≡ pos (logic_width (organization plan.now) (layout_kit kit.now))) }
    ensures height { IfOk result (λ edges. edges.height ≡ pos (logic_height (layout_kit kit.now))) }
{
    let width = i64::from(row_width(kit, row));
    let height = i64::from(leaf_height(kit, Role::Inv));
    edges_of(
        alloc,
        kit,
        &row.roles,
        &row.gates,
        cell.instances.as_slice(),
        width,
        height,
    )
}
