ghost use Rattle.std.specs.Prelude.{IsTrue, IfSome};
ghost use Rattle.tile_checker.specs.ClearArea.{IsClearArea};
ghost use Rattle.tile_checker.specs.Firsts.{IsClearAround, LiesClear};

use crate::minimum::Minimum;
use or_geom::{Point, Shape, holds};
use shape_bins::{Bins, ClearBox};

/// A box that the layer covers, with its clearance.
#[derive(Clone, Copy)]
pub struct ClearArea {
    pub layer: u16,
    pub filled: ClearBox,
}

/// A box that the shape's layer covers and that holds the shape, if one is known, with its clearance.
pub fn filled_around(bins: &Bins, shape: Shape) -> Option<ClearBox>
    ensures { IfSome result (IsClearAround bins.now shape) }
{
    let corner = Point {
        x: shape.rect.x1,
        y: shape.rect.y1,
    };
    let filled = bins.filled_at(shape.layer, corner)?;
    if holds(filled.rect, shape.rect) {
        return Some(filled);
    }
    None
}

/// Whether the box that was found last is of the shape's layer, holds the shape, and has no less clearance than the
/// minimum.
pub fn lies_clear(_bins: &Bins, shape: Shape, min: Minimum, last: Option<ClearArea>) -> bool
    requires { IfSome last (IsClearArea _bins.now) }
    ensures { IsTrue result → LiesClear min.value _bins.now shape }
{
    let Some(area) = last else {
        return false;
    };
    if area.layer != shape.layer {
        return false;
    }
    if area.filled.clearance < min.value {
        return false;
    }
    holds(area.filled.rect, shape.rect)
}
