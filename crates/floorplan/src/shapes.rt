ghost use Rattle.std.specs.Prelude.{◌<◌, ◌≤◌, ◌%◌, ◌+ℤ◌, ◌<ℤ◌, OnOk, length};
ghost use Rattle.or_geom.specs.Adds.{Adds};
ghost use Rattle.tech_rules.specs.Facts.{AreSizes};
ghost use Rattle.wire_drawing.specs.Drawing.{IsBox, LeavesRoom};
ghost use Rattle.macro_layout.specs.Wires.{IsBar};
ghost use Rattle.floorplan.specs.FloorplanNumbers.{IsFloorplanLength};
ghost use Rattle.floorplan.specs.Bars.{IsBarOfRow, IsRowBar};

use crate::counts::extent;
use or_geom::{Memory, Point, Rect, Shape};
use tech_rules::Wire;
use wire_drawing::via;

/// Adds one shape.
pub(crate) fn add_box(layer: u16, rect: Rect, shapes: &mut Vec<Shape>) -> Result<(), Memory>
    ensures { OnOk result (Adds shapes.old.items shapes.new.items (IsBox layer rect.x1 rect.y1 rect.x2 rect.y2)) }
{
    shapes.push(Shape { layer, rect })?;
    Ok(())
}

/// Adds a bar on the first metal, from its lower left corner to the right edge of a trunk, and the cut to the trunk.
pub(crate) fn add_bar(
    trunk: i64,
    from: Point,
    wire: &Wire,
    shapes: &mut Vec<Shape>,
) -> Result<(), Memory>
    requires sizes { AreSizes wire.now }
    requires cuts { 0 < length wire.now.cuts }
    requires metals { 0 < length wire.now.metals }
    requires room_x { LeavesRoom trunk }
    requires room_y { LeavesRoom from.y }
    requires before { from.x <ℤ (trunk +ℤ wire.now.width) }
    ensures { OnOk result (Adds shapes.old.items shapes.new.items (IsBar wire.now trunk from.x from.y)) }
{
    let rect = Rect {
        x1: from.x,
        y1: from.y,
        x2: trunk + wire.width,
        y2: from.y + wire.width,
    };
    add_box(wire.metals[0], rect, shapes)?;
    shapes.push(via(wire, 0, trunk, from.y))?;
    Ok(())
}

/// Adds a bar along the lower edge of a row, where the row is one of those that have it: the odd ones, or the even
/// ones.
fn add_row_bar(
    trunk: i64,
    from: Point,
    row: u32,
    height: u32,
    odd: u32,
    wire: &Wire,
    shapes: &mut Vec<Shape>,
) -> Result<(), Memory>
    requires sizes { AreSizes wire.now }
    requires cuts { 0 < length wire.now.cuts }
    requires metals { 0 < length wire.now.metals }
    requires room_x { LeavesRoom trunk }
    requires low { IsFloorplanLength from.y }
    requires few { row ≤ 256 }
    requires height { height ≤ 65536 }
    requires before { from.x <ℤ (trunk +ℤ wire.now.width) }
    ensures { OnOk result (Adds shapes.old.items shapes.new.items
        (IsBarOfRow wire.now trunk from.x from.y height odd row)) }
{
    if row % 2 != odd {
        return Ok(());
    }
    let y = from.y + extent(row, height) as i64;
    add_bar(trunk, Point { x: from.x, y }, wire, shapes)?;
    Ok(())
}

/// Adds a bar along the lower edge of every second row: of the odd ones, or of the even ones.
pub(crate) fn add_row_bars(
    trunk: i64,
    from: Point,
    rows: u32,
    height: u32,
    odd: u32,
    wire: &Wire,
    shapes: &mut Vec<Shape>,
) -> Result<(), Memory>
    requires sizes { AreSizes wire.now }
    requires cuts { 0 < length wire.now.cuts }
    requires metals { 0 < length wire.now.metals }
    requires room_x { LeavesRoom trunk }
    requires low { IsFloorplanLength from.y }
    requires few { rows ≤ 256 }
    requires height { height ≤ 65536 }
    requires before { from.x <ℤ (trunk +ℤ wire.now.width) }
    ensures { OnOk result (Adds shapes.old.items shapes.new.items
        (IsRowBar wire.now trunk from.x from.y height odd rows)) }
{
    for row in 0..rows {
        add_row_bar(trunk, from, row, height, odd, wire, shapes)?;
    }
    Ok(())
}
