ghost use Rattle.std.specs.Prelude.{◌≡◌, IfOk};
ghost use Rattle.rectilinear.specs.Ring.{sides_of};

use or_geom::{Memory, Point};
use std::alloc::Global;

/// A side of a ring, from one corner to the next.
#[derive(Clone, Copy, Debug, PartialEq, Eq)]
pub struct RingSide {
    pub a: Point,
    pub b: Point,
}

/// The sides of the ring that goes through these points in order, and from the last back to the first.
pub fn sides(alloc: Global, points: &[Point]) -> Result<Vec<RingSide>, Memory>
    ensures { IfOk result (λ sides. sides.items ≡ sides_of points.now) }
{
    let mut sides = Vec::with_capacity(alloc, points.len())?;
    let Some((first, others)) = points.split_first() else {
        return Ok(sides);
    };
    let mut from = *first;
    let mut rest = others;
    while let Some((next, after)) = rest.split_first() {
        sides.push(RingSide { a: from, b: *next })?;
        from = *next;
        rest = after;
    }
    sides.push(RingSide { a: from, b: *first })?;
    Ok(sides)
}
