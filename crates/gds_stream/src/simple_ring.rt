ghost use Rattle.std.specs.Prelude.{◌≡◌, ◌∷◌, [], ◌++◌, ◌≤◌, ◌<◌, ◌↔◌, IsTrue, length};
ghost use Rattle.rectilinear.specs.Ring.{side, sides_on};
ghost use Rattle.rectilinear.specs.Corners.{is_run, corners_of};
ghost use Rattle.rectilinear.specs.Simple.{MeetAcross, PairsMeet, AllStraight, IsSimple};
ghost use Rattle.gds_library.specs.Values.{segments, last_point};
ghost use Rattle.gds_library.proofs.TurnLaws.{Turning};

use crate::bounds::{bounds_of, common, is_empty};
use or_geom::Point;
use rectilinear::{RingSide, goes_on, is_straight, meet_as_neighbours};

/// Whether each segment of a run of points is parallel to an axis and longer than zero.
pub(crate) fn are_straight(run: &[Point]) -> bool
    ensures { IsTrue result ↔ AllStraight (segments run.now) }
{
    let Some((first, others)) = run.split_first() else {
        return true;
    };
    let mut from = *first;
    let mut rest = others;
    while let Some((next, after)) = rest.split_first() {
        if !is_straight(RingSide { a: from, b: *next }) {
            return false;
        }
        from = *next;
        rest = after;
    }
    true
}

/// A run of points as two, of which the second begins where the first ends.
fn halves(run: &[Point]) -> (&[Point], &[Point])
    requires { 3 ≤ length run.now }
    ensures parts { segments run.now ≡ segments result.0.now ++ segments result.1.now }
    ensures front { length result.0.now < length run.now }
    ensures back { length result.1.now < length run.now }
{
    let middle = run.len() / 2;
    (&run[..middle + 1], &run[middle..])
}

fn side_in(run: &[Point]) -> RingSide
    requires { length run.now ≡ 2 }
    ensures { segments run.now ≡ result ∷ [] }
{
    RingSide {
        a: run[0],
        b: run[1],
    }
}

/// Whether each segment of one run meets each of another only as a neighbour. Runs whose boxes are apart don't meet;
/// else the longer one is halved. Of a ring in its order most halves are soon apart.
fn runs_meet(run: &[Point], other: &[Point]) -> bool
    ensures { IsTrue result ↔ MeetAcross (segments run.now) (segments other.now) }
{
    if run.len() < 2 {
        return true;
    }
    if other.len() < 2 {
        return true;
    }
    if is_empty(common(bounds_of(run), bounds_of(other))) {
        return true;
    }
    if run.len() < other.len() {
        let (front, back) = halves(other);
        return runs_meet(run, front) && runs_meet(run, back);
    }
    if run.len() == 2 {
        return meet_as_neighbours(side_in(run), side_in(other));
    }
    let (front, back) = halves(run);
    runs_meet(front, other) && runs_meet(back, other)
}

/// Whether each two segments of a run meet only as neighbours.
fn run_meets(run: &[Point]) -> bool
    ensures { IsTrue result ↔ PairsMeet (segments run.now) }
{
    if run.len() < 3 {
        return true;
    }
    let (front, back) = halves(run);
    run_meets(front) && run_meets(back) && runs_meet(front, back)
}

/// The side from the last corner of a ring back to the first.
fn last_side(first: Point, others: &[Point]) -> RingSide
    ensures { result ≡ side (last_point first others.now) first }
{
    let mut last = first;
    let mut rest = others;
    while let Some((next, after)) = rest.split_first() {
        last = *next;
        rest = after;
    }
    RingSide { a: last, b: first }
}

/// Whether no side of a ring goes on as the one before it: of the side that comes back to the first corner, and those
/// through the others.
fn turns_everywhere(last: RingSide, others: &[Point]) -> bool
    ensures { IsTrue result ↔ Turning last (sides_on last.b others.now last.b) }
{
    let first = last.b;
    let mut before = last;
    let mut rest = others;
    while let Some((next, after)) = rest.split_first() {
        let side = RingSide {
            a: before.b,
            b: *next,
        };
        if goes_on(before, side) {
            return false;
        }
        before = side;
        rest = after;
    }
    !goes_on(
        before,
        RingSide {
            a: before.b,
            b: first,
        },
    )
}

/// Whether the sides of a ring are parallel to the axes and meet only as neighbours, and no corner lies inside a
/// straight run.
pub(crate) fn is_simple_ring(corners: &[Point]) -> bool
    ensures { IsTrue result ↔ (IsSimple corners.now × (corners_of corners.now ≡ corners.now)) }
{
    if corners.len() < 4 {
        return false;
    }
    let Some((first, others)) = corners.split_first() else {
        return false;
    };
    let last = last_side(*first, others);
    if !are_straight(corners) {
        return false;
    }
    if !is_straight(last) {
        return false;
    }
    if !turns_everywhere(last, others) {
        return false;
    }
    if !run_meets(corners) {
        return false;
    }
    runs_meet(corners, &[last.a, last.b])
}
