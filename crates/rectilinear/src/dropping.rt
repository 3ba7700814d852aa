ghost use Rattle.std.specs.Prelude.{◌≡◌, ◌++◌, IfOk};
ghost use Rattle.rectilinear.specs.Corners.{is_zero, is_up, is_down, is_right, is_left, is_run, steps, turns_after};
ghost use Rattle.rectilinear.specs.Corners.{last_of, corners_of};

use crate::ring::{RingSide, sides};
use or_geom::{Memory, Point};
use std::alloc::Global;

fn is_still(side: RingSide) -> bool
    ensures { result ≡ is_zero side }
{
    side.a.x == side.b.x && side.a.y == side.b.y
}

fn goes_up(side: RingSide) -> bool
    ensures { result ≡ is_up side }
{
    side.a.x == side.b.x && side.a.y < side.b.y
}

fn goes_down(side: RingSide) -> bool
    ensures { result ≡ is_down side }
{
    side.a.x == side.b.x && side.b.y < side.a.y
}

fn goes_right(side: RingSide) -> bool
    ensures { result ≡ is_right side }
{
    side.a.y == side.b.y && side.a.x < side.b.x
}

fn goes_left(side: RingSide) -> bool
    ensures { result ≡ is_left side }
{
    side.a.y == side.b.y && side.b.x < side.a.x
}

/// Whether the second side goes the way of the first: up, down, right or left.
pub fn goes_on(s: RingSide, t: RingSide) -> bool
    ensures { result ≡ is_run s t }
{
    if goes_up(s) {
        return goes_up(t);
    }
    if goes_down(s) {
        return goes_down(t);
    }
    if goes_right(s) {
        return goes_right(t);
    }
    if goes_left(s) {
        return goes_left(t);
    }
    false
}

/// The points of a ring without repeated ones and those inside straight runs.
pub fn corners(alloc: Global, points: &[Point]) -> Result<Vec<Point>, Memory>
    ensures { IfOk result (λ corners. corners.items ≡ corners_of points.now) }
{
    let all = sides(alloc, points)?;
    let moving = moving_sides(alloc, &all)?;
    let Some((first, others)) = moving.split_first() else {
        return Ok(Vec::new(alloc));
    };
    turning_points(alloc, last_side(*first, others), &moving)
}

fn last_side(first: RingSide, others: &[RingSide]) -> RingSide
    ensures { result ≡ last_of first others.now }
{
    let mut last = first;
    let mut rest = others;
    while let Some((side, after)) = rest.split_first() {
        last = *side;
        rest = after;
    }
    last
}

fn moving_sides(alloc: Global, sides: &[RingSide]) -> Result<Vec<RingSide>, Memory>
    ensures { IfOk result (λ moving. moving.items ≡ steps sides.now) }
{
    let mut moving = Vec::new(alloc);
    let mut rest = sides;
    while let Some((side, others)) = rest.split_first() {
        rest = others;
        if is_still(*side) {
            continue;
        }
        moving.push(*side)?;
    }
    Ok(moving)
}

fn turning_points(alloc: Global, last: RingSide, sides: &[RingSide]) -> Result<Vec<Point>, Memory>
    ensures { IfOk result (λ points. points.items ≡ turns_after last sides.now) }
{
    let mut points = Vec::new(alloc);
    let mut before = last;
    let mut rest = sides;
    while let Some((side, others)) = rest.split_first() {
        let from = before;
        before = *side;
        rest = others;
        if goes_on(from, *side) {
            continue;
        }
        points.push(side.a)?;
    }
    Ok(points)
}
