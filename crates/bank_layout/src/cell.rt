ghost use Rattle.std.specs.Prelude.{◌≡◌, ◌++◌, IfOk};
ghost use Rattle.sram_netlist.specs.Organization.{Organization};
ghost use Rattle.macro_layout.specs.LayoutKit.{LayoutKit};
ghost use Rattle.macro_layout.specs.Cells.{bank_cell, part_at};
ghost use Rattle.floorplan.specs.Sides.{AreLeafSides, AreSidesOf};
ghost use Rattle.floorplan.specs.FloorplanNumbers.{floorplan_of, IsNearFloorplan};

use cell_builder::{DrawnCell, PlacedInstance};
use floorplan::{FloorplanNumbers, LeafSides, columns_x};
use or_geom::{Items, Memory, Name, Orient, Place, Point, Shape};
use port_lists::{Spelling, part_name, spell};
use std::alloc::Global;

/// An instance of one of the macro's cells. The instance's name is given, and the cell's is the macro's with the part's
/// behind it.
fn part_at(
    alloc: Global,
    instance: &'static [u8],
    name: &Name,
    part: &[u8],
    at: Point,
) -> Result<PlacedInstance, Memory>
    ensures { IfOk result (λ i. i ≡ part_at instance.now (name.now ++ part.now) at.x at.y) }
{
    Ok(PlacedInstance {
        name: spell(alloc, Spelling::Word(instance))?,
        of: part_name(alloc, name, part)?,
        place: Place {
            orient: Orient::R0,
            at,
        },
    })
}

/// The cell of a bank: its array, its precharge cells and its data, with the bank's wires. Coordinates are nanometres
/// from the bank's lower edge. `name` is the macro's.
pub fn bank_cell(
    alloc: Global,
    name: &Name,
    sides: &LeafSides,
    floorplan: &FloorplanNumbers,
    wires: Vec<Shape>,
) -> Result<DrawnCell, Memory>
    requires sides { AreLeafSides sides.now }
    requires near { IsNearFloorplan floorplan.now }
    ensures { IfOk result (λ cell. (plan : Organization) (kit : LayoutKit) → AreSidesOf plan kit sides.now
        → cell ≡ bank_cell plan kit (floorplan_of floorplan.now) name.now wires.items) }
{
    let columns = columns_x(sides, floorplan);
    let array = Point {
        x: floorplan.row_x,
        y: floorplan.array_y - floorplan.write_y,
    };
    let precharge = Point {
        x: columns,
        y: floorplan.precharge_y - floorplan.write_y,
    };
    let data = Point { x: columns, y: 0 };
    let mut instances = Vec::new(alloc);
    instances.push(part_at(alloc, b"xarray", name, b"_array", array)?)?;
    instances.push(part_at(alloc, b"xpre", name, b"_pre", precharge)?)?;
    instances.push(part_at(alloc, b"xdata", name, b"_data", data)?)?;
    Ok(DrawnCell {
        name: part_name(alloc, name, b"_bank")?,
        instances: Items::from_vec(instances),
        wires: Items::from_vec(wires),
        labels: Items::new(alloc),
    })
}
