ghost use Rattle.std.specs.Prelude.{◌≡◌, [], IfOk, OnOk};
ghost use Rattle.leaf_tables.specs.Kits.{IsKit};
ghost use Rattle.port_lists.specs.Cells.{cell_in};
ghost use Rattle.port_lists.specs.Held.{held_of};
ghost use Rattle.sram_netlist.specs.Numbers.{ArePlanNumbers};
ghost use Rattle.sram_plan.specs.PlanNumbers.{numbers_of, organization};
ghost use Rattle.cell_builder.specs.Finish.{IsLibraryOf};
ghost use Rattle.port_lists.specs.Contents.{AreHeldBy};
ghost use Rattle.sram_macro.specs.Macro.{macro_bits};
ghost use Rattle.floorplan.specs.LayoutOfKit.{layout_kit};
ghost use Rattle.control_logic.specs.LogicPart.{IsLogicRow};
ghost use Rattle.floorplan.specs.Sides.{AreLeafSides, AreSidesOf};
ghost use Rattle.floorplan.specs.FloorplanNumbers.{floorplan_of, IsNearFloorplan};
ghost use Rattle.sram_macro.specs.Library.{part_cells, macro_list, drawing_with, AreOnLayers};

use crate::top_cell::macro_cell;
use bank_layout::bank_cell;
use bitcell_array::add_cells;
use cell_builder::{Cells, PlacedLabel};
use control_logic::{LogicRow, logic_row_cell};
use floorplan::{FloorplanNumbers, LeafSides};
use gds_library::Library;
use leaf_tables::Kit;
use or_geom::{Memory, Name, Shape};
use port_data::data_cell;
use port_lists::Contents;
use sram_plan::Plan;
use std::alloc::Global;

/// The wires of a bank, from its lower edge, and the wires and labels of the macro.
#[derive(Drop)]
pub struct Wires {
    pub bank: Vec<Shape>,
    pub top: Vec<Shape>,
    pub labels: Vec<PlacedLabel>,
}

/// What a macro's cells are drawn from beside their wires: the sides of the leaf cells, where the parts stand, and the
/// logic row.
#[derive(Drop)]
pub struct DrawingFrame {
    pub sides: LeafSides,
    pub floorplan: FloorplanNumbers,
    pub row: LogicRow,
}

/// Draws the cells of a bank's parts.
fn draw_parts(
    alloc: Global,
    kit: &Kit,
    plan: &Plan,
    name: &Name,
    contents: Contents<'_>,
    floorplan: &FloorplanNumbers,
    cells: &mut Cells,
) -> Result<(), Memory>
    requires kit { IsKit kit.now }
    requires plan { ArePlanNumbers (numbers_of plan.now) }
    requires contents { AreHeldBy (organization plan.now) (held_of contents) }
    requires near { IsNearFloorplan floorplan.now }
    requires none { cells.old.cells ≡ [] }
    ensures adopted { OnOk result (cells.new.adopted ≡ cells.old.adopted) }
    ensures cells { OnOk result (cells.new.cells
        ≡ part_cells kit.now (organization plan.now) (macro_bits kit.now plan.now (held_of contents.entry)) name.now
        (floorplan_of floorplan.now)) }
{
    let sense_y = floorplan.sense_y - floorplan.write_y;
    let column_y = floorplan.column_y - floorplan.write_y;
    add_cells(alloc, kit, plan, name, contents, cells)?;
    cells.draw(data_cell(alloc, kit, plan, name, sense_y, column_y)?)?;
    Ok(())
}

/// The macro's library: the structures of the leaf cells, and one for each cell.
pub fn library(
    alloc: Global,
    kit: &Kit,
    plan: &Plan,
    name: &Name,
    contents: Contents<'_>,
    frame: &DrawingFrame,
    wires: Wires,
) -> Result<Library, Memory>
    requires kit { IsKit kit.now }
    requires plan { ArePlanNumbers (numbers_of plan.now) }
    requires contents { AreHeldBy (organization plan.now) (held_of contents) }
    requires sides { AreLeafSides frame.now.sides }
    requires of { AreSidesOf (organization plan.now) (layout_kit kit.now) frame.now.sides }
    requires near { IsNearFloorplan frame.now.floorplan }
    requires row { IsLogicRow (organization plan.now) (cell_in kit.now.tech.roles) frame.now.row }
    requires layers { AreOnLayers kit.now.tech.layers wires }
    ensures { IfOk result (IsLibraryOf kit.now.tech.layers
        (macro_list kit.now (organization plan.now) name.now
        (drawing_with (macro_bits kit.now plan.now (held_of contents.entry)) frame.now.floorplan wires)) name.now) }
{
    let floorplan = &frame.floorplan;
    let mut cells = Cells::new(alloc)?;
    cells.adopt(&kit.lib)?;
    draw_parts(alloc, kit, plan, name, contents, floorplan, &mut cells)?;
    cells.draw(bank_cell(alloc, name, &frame.sides, floorplan, wires.bank)?)?;
    cells.draw(logic_row_cell(alloc, kit, name, &frame.row)?)?;
    cells.draw(macro_cell(alloc, plan, name, floorplan, wires.top, wires.labels)?)?;
    Ok(cells.finish(name, &kit.tech)?)
}
