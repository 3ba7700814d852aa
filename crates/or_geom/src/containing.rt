ghost use Rattle.std.specs.Prelude.{◌↔◌, IsTrue};
ghost use Rattle.or_geom.specs.Containing.{HoldsRect, IsAround};

use crate::shape::Rect;

/// Whether the outer rectangle contains the inner.
#[inline(always)]
pub fn holds(outer: Rect, inner: Rect) -> bool
    ensures { IsTrue result ↔ HoldsRect outer inner }
{
    if inner.x1 < outer.x1 {
        return false;
    }
    if outer.x2 < inner.x2 {
        return false;
    }
    if inner.y1 < outer.y1 {
        return false;
    }
    if outer.y2 < inner.y2 {
        return false;
    }
    true
}

/// The least rectangle that contains both.
pub fn around(a: Rect, b: Rect) -> Rect
    ensures { IsAround a b result }
{
    Rect {
        x1: a.x1.min(b.x1),
        y1: a.y1.min(b.y1),
        x2: a.x2.max(b.x2),
        y2: a.y2.max(b.y2),
    }
}
