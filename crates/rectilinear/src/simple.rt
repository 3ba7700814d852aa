ghost use Rattle.std.specs.Prelude.{◌≡◌, ◌∷◌, ◌↔◌, ◌≤ℤ◌, IsTrue, IfOk};
ghost use Rattle.rectilinear.specs.Simple.{IsStraight, MeetAtMostThere, MeetAsNeighbours, MeetAcross};
ghost use Rattle.rectilinear.specs.Simple.{AllStraight, PairsMeet, IsSimple};
ghost use Rattle.rectilinear.specs.Extents.{IsExtentOf, IsCommon, IsExtentAround, IsEmpty, HoldsSides, IsAtMostPoint};

use crate::ring::{RingSide, sides};
use or_geom::{Memory, Point};
use std::alloc::Global;

/// The closed box from one corner to another; it is empty where the second lies below or left.
#[derive(Clone, Copy)]
struct Extent {
    low: Point,
    high: Point,
}

/// Whether the side is parallel to an axis and longer than zero.
pub fn is_straight(side: RingSide) -> bool
    ensures { IsTrue result ↔ IsStraight side }
{
    if side.a.x == side.b.x {
        return side.a.y != side.b.y;
    }
    side.a.y == side.b.y
}

fn extent_of(side: RingSide) -> Extent
    ensures { IsExtentOf side result }
{
    Extent {
        low: Point {
            x: side.a.x.min(side.b.x),
            y: side.a.y.min(side.b.y),
        },
        high: Point {
            x: side.a.x.max(side.b.x),
            y: side.a.y.max(side.b.y),
        },
    }
}

fn common(e: Extent, f: Extent) -> Extent
    ensures { IsCommon e f result }
{
    Extent {
        low: Point {
            x: e.low.x.max(f.low.x),
            y: e.low.y.max(f.low.y),
        },
        high: Point {
            x: e.high.x.min(f.high.x),
            y: e.high.y.min(f.high.y),
        },
    }
}

fn is_same(p: Point, q: Point) -> bool
    ensures { IsTrue result ↔ (p ≡ q) }
{
    if p.x != q.x {
        return false;
    }
    p.y == q.y
}

/// Whether nothing but the point lies in the box.
fn is_at_most(extent: Extent, point: Point) -> bool
    ensures { IsTrue result ↔ IsAtMostPoint extent point }
{
    if extent.high.x < extent.low.x {
        return true;
    }
    if extent.high.y < extent.low.y {
        return true;
    }
    if is_same(extent.low, point) {
        return is_same(extent.high, point);
    }
    false
}

fn meet_at_most_there(s: RingSide, t: RingSide) -> bool
    ensures { IsTrue result ↔ MeetAtMostThere s t }
{
    let both = common(extent_of(s), extent_of(t));
    if is_at_most(both, s.b) {
        return is_at_most(both, t.a);
    }
    false
}

/// Whether the sides meet only as neighbours, at the corner between them, or not at all.
pub fn meet_as_neighbours(s: RingSide, t: RingSide) -> bool
    ensures { IsTrue result ↔ MeetAsNeighbours s t }
{
    if meet_at_most_there(s, t) {
        return true;
    }
    meet_at_most_there(t, s)
}

fn all_straight(sides: &[RingSide]) -> bool
    ensures { IsTrue result ↔ AllStraight sides.now }
{
    let mut rest = sides;
    while let Some((side, others)) = rest.split_first() {
        if !is_straight(*side) {
            return false;
        }
        rest = others;
    }
    true
}

/// The box round both.
fn around(e: Extent, f: Extent) -> Extent
    ensures { IsExtentAround e f result }
{
    Extent {
        low: Point {
            x: e.low.x.min(f.low.x),
            y: e.low.y.min(f.low.y),
        },
        high: Point {
            x: e.high.x.max(f.high.x),
            y: e.high.y.max(f.high.y),
        },
    }
}

/// The box round some sides.
fn hull_of(first: RingSide, others: &[RingSide]) -> Extent
    ensures { HoldsSides result (first ∷ others.now) }
{
    let mut hull = extent_of(first);
    for side in others {
        hull = around(hull, extent_of(*side));
    }
    hull
}

fn is_empty(extent: Extent) -> bool
    ensures { IsTrue result → IsEmpty extent }
{
    extent.high.x < extent.low.x || extent.high.y < extent.low.y
}

/// Whether each of some sides meets each of others only as a neighbour. Sides whose boxes are apart don't meet; else
/// the longer list is halved. Of a ring in its order most halves are soon apart.
fn meet_across(sides: &[RingSide], others: &[RingSide]) -> bool
    ensures { IsTrue result ↔ MeetAcross sides.now others.now }
{
    let Some((side, after)) = sides.split_first() else {
        return true;
    };
    let Some((other, behind)) = others.split_first() else {
        return true;
    };
    if is_empty(common(hull_of(*side, after), hull_of(*other, behind))) {
        return true;
    }
    if after.is_empty() && behind.is_empty() {
        return meet_as_neighbours(*side, *other);
    }
    if sides.len() < others.len() {
        let (front, back) = others.split_at(others.len() / 2);
        return meet_across(sides, front) && meet_across(sides, back);
    }
    let (front, back) = sides.split_at(sides.len() / 2);
    meet_across(front, others) && meet_across(back, others)
}

/// Whether each two sides meet only as neighbours.
fn pairs_meet(sides: &[RingSide]) -> bool
    ensures { IsTrue result ↔ PairsMeet sides.now }
{
    if sides.len() < 2 {
        return true;
    }
    let (front, back) = sides.split_at(sides.len() / 2);
    pairs_meet(front) && pairs_meet(back) && meet_across(front, back)
}

/// Whether the ring's sides are parallel to the axes and meet only as neighbours.
pub fn is_simple(alloc: Global, corners: &[Point]) -> Result<bool, Memory>
    ensures { IfOk result (λ simple. IsTrue simple ↔ IsSimple corners.now) }
{
    if corners.len() < 4 {
        return Ok(false);
    }
    let sides = sides(alloc, corners)?;
    if !all_straight(&sides) {
        return Ok(false);
    }
    Ok(pairs_meet(&sides))
}
