ghost use Rattle.std.specs.Prelude.{◌≡◌, ◌++◌, ◌∷◌, ◌<◌, ◌≤◌, length, OnOk, if◌then◌else◌};
ghost use Rattle.std.specs.List.{AllByRecursion};
ghost use Rattle.gds_records.specs.Values.{IsShort};
ghost use Rattle.gds_records.specs.Writing.{points_bytes};
ghost use Rattle.gds_stream.specs.Canonical.{closed_ring};
ghost use Rattle.gds_stream.specs.Turned as turn;

use gds_records::{append_point, append_points, append_points_back};
use or_geom::{Memory, Point};

fn is_lower(p: Point, q: Point) -> bool
    ensures { result ≡ turn.is_lower p q }
{
    p.y < q.y || (p.y == q.y && p.x < q.x)
}

/// The index of the lowest corner, the leftmost of these.
pub fn lowest_index(corners: &[Point]) -> usize
    ensures is { result ≡ turn.lowest_index corners.now }
    ensures within { 1 ≤ length corners.now → result < length corners.now }
{
    let Some((first, others)) = corners.split_first() else {
        return 0;
    };
    let mut lowest = *first;
    let mut index = 0;
    let mut next = 1;
    let mut rest = others;
    while let Some((corner, after)) = rest.split_first() {
        if is_lower(*corner, lowest) {
            lowest = *corner;
            index = next;
        }
        next += 1;
        rest = after;
    }
    index
}

/// Whether the first side of a ring goes right: of the corners from one on and those before it.
pub fn goes_right(from: &[Point], before: &[Point]) -> bool
    requires { 1 ≤ length from.now }
    ensures { result ≡ turn.goes_right (from.now ++ before.now) }
{
    let Some((first, others)) = from.split_first() else {
        return false;
    };
    let Some((second, _)) = others.split_first() else {
        let Some((second, _)) = before.split_first() else {
            return false;
        };
        return first.y == second.y && first.x < second.x;
    };
    first.y == second.y && first.x < second.x
}

/// Adds the bytes of a ring and of its first corner again: from this corner on through the others to the last ones
/// before it, or the other way round.
pub fn append_closed(
    out: &mut Vec<u8>,
    forward: bool,
    first: Point,
    others: &[Point],
    before: &[Point],
) -> Result<(), Memory>
    requires first { IsShort first }
    requires others { AllByRecursion IsShort others.now }
    requires before { AllByRecursion IsShort before.now }
    ensures { OnOk result (out.new.items ≡ out.old.items ++ points_bytes
        (closed_ring (if forward then first ∷ (others.now ++ before.now) else turn.other_way
        (first ∷ (others.now ++ before.now))))) }
{
    append_point(out, first)?;
    if forward {
        append_points(out, others)?;
        append_points(out, before)?;
    } else {
        append_points_back(out, before)?;
        append_points_back(out, others)?;
    }
    append_point(out, first)
}
