ghost use Rattle.std.specs.Prelude.{◌↔◌, IsTrue};
ghost use Rattle.leaf_shapes.specs.Fits.{FitsCell, IsAcross, IsWireHigh, Spans};

use or_geom::Rect;

/// The size of a cell, whose lower left corner is the origin, in nanometres.
#[derive(Clone, Copy, PartialEq, Eq, Debug)]
pub struct CellSize {
    pub width: i64,
    pub height: i64,
}

/// How a pin's shape has to lie in its cell. A shape that reaches the upper or the lower edge is as wide as a wire; one
/// that reaches the left or the right edge, or that may lie anywhere, is as high as a wire is wide.
#[derive(Clone, Copy, PartialEq, Eq, Debug)]
pub enum Fit {
    Top,
    Bottom,
    TopAndBottom,
    Left,
    Right,
    LeftAndRight,
    Anywhere,
    /// The strip along the whole lower edge, as high as a wire is wide.
    LowerRail,
    /// The strip along the whole upper edge.
    UpperRail,
}

/// Whether the rectangle is as wide as a wire.
fn is_across(rect: Rect, wire: i64) -> bool
    ensures { IsTrue result ↔ IsAcross wire rect }
{
    match rect.x2.checked_sub(rect.x1) {
        Some(side) => side == wire,
        None => false,
    }
}

/// Whether the rectangle is as high as a wire is wide.
fn is_upward(rect: Rect, wire: i64) -> bool
    ensures { IsTrue result ↔ IsWireHigh wire rect }
{
    match rect.y2.checked_sub(rect.y1) {
        Some(side) => side == wire,
        None => false,
    }
}

/// Whether the rectangle goes from the cell's left edge to its right edge.
fn spans(rect: Rect, size: CellSize) -> bool
    ensures { IsTrue result ↔ Spans size rect }
{
    rect.x1 == 0 && rect.x2 == size.width
}

impl Fit {
    /// Whether the rectangle lies so in a cell of this size, where wires have this width.
    pub fn holds(self, rect: Rect, size: CellSize, wire: i64) -> bool
        ensures { IsTrue result ↔ FitsCell self wire size rect }
    {
        match self {
            Fit::Top => rect.y2 == size.height && is_across(rect, wire),
            Fit::Bottom => rect.y1 == 0 && is_across(rect, wire),
            Fit::TopAndBottom => { rect.y2 == size.height && rect.y1 == 0 && is_across(rect, wire) }
            Fit::Left => rect.x1 == 0 && is_upward(rect, wire),
            Fit::Right => rect.x2 == size.width && is_upward(rect, wire),
            Fit::LeftAndRight => spans(rect, size) && is_upward(rect, wire),
            Fit::Anywhere => is_upward(rect, wire),
            Fit::LowerRail => spans(rect, size) && rect.y1 == 0 && rect.y2 == wire,
            Fit::UpperRail => {
                spans(rect, size) && rect.y2 == size.height && is_upward(rect, wire)
            }
        }
    }
}
