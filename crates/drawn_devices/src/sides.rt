ghost use Rattle.std.specs.Prelude.{◌≡◌, ◌↔◌, IsTrue, MatchOption};
ghost use Rattle.or_geom.specs.Distance.{IsReachable};
ghost use Rattle.drawn_devices.specs.CutCell.{IsCutCell};
ghost use Rattle.drawn_devices.specs.Diffusion.{IsActive};
ghost use Rattle.drawn_devices.specs.Sides.{IsColumn, HasRoom, IsOpen, IsPassed, IsRow, IsShut, IsStrip, crosswise};
ghost use Rattle.drawn_devices.specs.Sides.{first_side, second_side};

use crate::cut_cell::CutCell;
use crate::drawn::{Flow, Side};
use or_geom::Rect;

impl Flow {
    /// The side at which it begins: the left or the lower one.
    pub fn first_side(self) -> Side
        ensures { result ≡ first_side self }
    {
        match self {
            Flow::Across => Side::Left,
            Flow::Upward => Side::Below,
        }
    }

    /// The opposite side.
    pub fn second_side(self) -> Side
        ensures { result ≡ second_side self }
    {
        match self {
            Flow::Across => Side::Right,
            Flow::Upward => Side::Above,
        }
    }

    /// The other flow.
    fn crosswise(self) -> Flow
        ensures { result ≡ crosswise self }
    {
        match self {
            Flow::Across => Flow::Upward,
            Flow::Upward => Flow::Across,
        }
    }
}

/// The column of unit cells at x beside the box.
fn column(x: i64, area: Rect) -> Rect
    requires { HasRoom x }
    ensures { IsColumn x area result }
{
    Rect {
        x1: x,
        y1: area.y1,
        x2: x + 1,
        y2: area.y2,
    }
}

/// The row of unit cells at y below or above the box.
fn row(y: i64, area: Rect) -> Rect
    requires { HasRoom y }
    ensures { IsRow y area result }
{
    Rect {
        x1: area.x1,
        y1: y,
        x2: area.x2,
        y2: y + 1,
    }
}

/// The unit cells along a side of a box, outside it.
pub fn strip(side: Side, area: Rect) -> Rect
    requires { IsReachable area }
    ensures { IsStrip side area result }
{
    match side {
        Side::Left => column(area.x1 - 1, area),
        Side::Right => column(area.x2, area),
        Side::Below => row(area.y1 - 1, area),
        Side::Above => row(area.y2, area),
    }
}

/// Whether every unit cell along the side is a diffusion cell of the layer, which is active.
fn is_open(cell: &CutCell, layer: u16, area: Rect, side: Side) -> bool
    requires cut { IsCutCell cell.now }
    requires active { IsActive cell.now.tech.now.devices layer }
    requires near { IsReachable area }
    ensures { IsTrue result ↔ IsOpen cell.now.tech.now cell.now.shapes.now layer area side }
{
    cell.bins.box_covered(layer, strip(side, area))
}

/// Whether none is.
fn is_shut(cell: &CutCell, layer: u16, area: Rect, side: Side) -> bool
    requires cut { IsCutCell cell.now }
    requires active { IsActive cell.now.tech.now.devices layer }
    requires near { IsReachable area }
    ensures { IsTrue result ↔ IsShut cell.now.tech.now cell.now.shapes.now layer area side }
{
    cell.bins.some_over(layer, strip(side, area)).is_none()
}

/// Whether the sides at which the flow begins and ends are open, and the two others are shut.
fn is_passed(cell: &CutCell, layer: u16, area: Rect, flow: Flow) -> bool
    requires cut { IsCutCell cell.now }
    requires active { IsActive cell.now.tech.now.devices layer }
    requires near { IsReachable area }
    ensures { IsTrue result ↔ IsPassed cell.now.tech.now cell.now.shapes.now layer area flow }
{
    let across = flow.crosswise();
    is_open(cell, layer, area, flow.first_side())
        && is_open(cell, layer, area, flow.second_side())
        && is_shut(cell, layer, area, across.first_side())
        && is_shut(cell, layer, area, across.second_side())
}

/// Between which sides current flows, if two opposite sides are open and the two others are shut.
pub fn flow_of(cell: &CutCell, layer: u16, area: Rect) -> Option<Flow>
    requires cut { IsCutCell cell.now }
    requires active { IsActive cell.now.tech.now.devices layer }
    requires near { IsReachable area }
    ensures { MatchOption result ((flow : Flow) → IsPassed cell.now.tech.now cell.now.shapes.now layer area flow
        → ⊥) (IsPassed cell.now.tech.now cell.now.shapes.now layer area) }
{
    if is_passed(cell, layer, area, Flow::Across) {
        return Some(Flow::Across);
    }
    if is_passed(cell, layer, area, Flow::Upward) {
        return Some(Flow::Upward);
    }
    None
}
