ghost use Rattle.std.specs.Prelude.{◌≡◌, ◌<◌, pos, ◌+ℤ◌, ◌<ℤ◌, OnOk, length, slice_index};
ghost use Rattle.or_geom.specs.Adds.{Adds};
ghost use Rattle.tech_rules.specs.Facts.{AreSizes};
ghost use Rattle.wire_drawing.specs.Drawing.{IsBox, LeavesRoom};
ghost use Rattle.sram_plan.specs.PlanNumbers.{organization};
ghost use Rattle.macro_layout.specs.LayoutKit.{LayoutKit};
ghost use Rattle.macro_layout.specs.Wires.{IsPowerWire, IsGroundWire, trunk_x, ground_x};
ghost use Rattle.floorplan.specs.Sides.{AreSidesOf};
ghost use Rattle.floorplan.specs.FloorplanNumbers.{floorplan_of};
ghost use Rattle.floorplan.specs.Trunks.{CanDrawSupply};

use crate::joiners::columns_x;
use crate::numbers::FloorplanNumbers;
use crate::shapes::{add_bar, add_box, add_row_bars};
use crate::sides::LeafSides;
use or_geom::{Memory, Point, Rect, Shape};
use sram_plan::Plan;
use tech_rules::Wire;

/// Adds a trunk on the second metal from the macro's lower to its upper edge.
fn add_trunk(x: i64, upper: i64, wire: &Wire, shapes: &mut Vec<Shape>) -> Result<(), Memory>
    requires sizes { AreSizes wire.now }
    requires metals { 1 < length wire.now.metals }
    requires room { LeavesRoom x }
    requires tall { pos 0 <ℤ upper }
    ensures { OnOk result (Adds shapes.old.items shapes.new.items
        (IsBox (slice_index wire.now.metals 1) x (pos 0) (x +ℤ wire.now.width) upper)) }
{
    let rect = Rect {
        x1: x,
        y1: 0,
        x2: x + wire.width,
        y2: upper,
    };
    add_box(wire.metals[1], rect, shapes)?;
    Ok(())
}

/// Adds the trunk of vdd and its bars, which run along the supply rails of the cells: those of the write cells where
/// something is written.
pub fn add_power_wires(
    plan: &Plan,
    sides: &LeafSides,
    wire: &Wire,
    floorplan: &FloorplanNumbers,
    trunk: i64,
    shapes: &mut Vec<Shape>,
) -> Result<(), Memory>
    requires { CanDrawSupply plan.now sides.now wire.now floorplan.now trunk }
    ensures { OnOk result ((kit : LayoutKit) → AreSidesOf (organization plan.now) kit sides.now
        → trunk ≡ trunk_x (organization plan.now) kit wire.now (floorplan_of floorplan.now)
        → Adds shapes.old.items shapes.new.items
        (IsPowerWire (organization plan.now) kit wire.now (floorplan_of floorplan.now))) }
{
    let columns = columns_x(sides, floorplan);
    let upper = floorplan.precharge_y + sides.precharge_height as i64;
    let logic = Point {
        x: floorplan.logic_x,
        y: sides.inv_height as i64 - wire.width,
    };
    let write = Point {
        x: columns,
        y: floorplan.write_y,
    };
    let sense = Point {
        x: columns,
        y: floorplan.sense_y + sides.sense_height as i64 - wire.width,
    };
    let ends = Point {
        x: columns,
        y: floorplan.column_y,
    };
    let rows = Point {
        x: floorplan.row_x,
        y: floorplan.array_y,
    };
    let precharge = Point {
        x: columns,
        y: upper - wire.width,
    };
    add_trunk(trunk, upper, wire, shapes)?;
    add_bar(trunk, logic, wire, shapes)?;
    if plan.write_size > 0 {
        add_bar(trunk, write, wire, shapes)?;
    }
    add_bar(trunk, sense, wire, shapes)?;
    add_bar(trunk, ends, wire, shapes)?;
    add_row_bars(trunk, rows, plan.rows, sides.bit_height, 1, wire, shapes)?;
    add_bar(trunk, precharge, wire, shapes)?;
    Ok(())
}

/// Adds the trunk of gnd and its bars.
pub fn add_ground_wires(
    plan: &Plan,
    sides: &LeafSides,
    wire: &Wire,
    floorplan: &FloorplanNumbers,
    trunk: i64,
    shapes: &mut Vec<Shape>,
) -> Result<(), Memory>
    requires { CanDrawSupply plan.now sides.now wire.now floorplan.now trunk }
    ensures { OnOk result ((kit : LayoutKit) → AreSidesOf (organization plan.now) kit sides.now
        → trunk ≡ ground_x (organization plan.now) kit wire.now (floorplan_of floorplan.now)
        → Adds shapes.old.items shapes.new.items
        (IsGroundWire (organization plan.now) kit wire.now (floorplan_of floorplan.now))) }
{
    let columns = columns_x(sides, floorplan);
    let upper = floorplan.precharge_y + sides.precharge_height as i64;
    let logic = Point {
        x: floorplan.logic_x,
        y: 0,
    };
    let sense = Point {
        x: columns,
        y: floorplan.sense_y,
    };
    let rows = Point {
        x: floorplan.row_x,
        y: floorplan.array_y,
    };
    let precharge = Point {
        x: floorplan.row_x,
        y: floorplan.precharge_y,
    };
    add_trunk(trunk, upper, wire, shapes)?;
    add_bar(trunk, logic, wire, shapes)?;
    add_bar(trunk, sense, wire, shapes)?;
    add_row_bars(trunk, rows, plan.rows, sides.bit_height, 0, wire, shapes)?;
    add_bar(trunk, precharge, wire, shapes)?;
    Ok(())
}
