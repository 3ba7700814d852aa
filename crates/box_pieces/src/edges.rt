ghost use Rattle.std.specs.Prelude.{◌≡◌, length, Contains, IfOk, OnOk, MatchOption};
ghost use Rattle.box_pieces.specs.Edges.{AddsBetween, AreEdges, HaveNoEdge, IsPlaceWithin, low_of, high_of};

use or_geom::{Memory, Rect, Span};
use std::alloc::Global;

/// The direction in which something is measured.
#[derive(Clone, Copy)]
pub enum Axis {
    /// From left to right.
    Across,
    /// From below to above.
    Upward,
}

/// What the rectangle takes of the axis.
pub fn span_of(axis: Axis, rect: Rect) -> Span
    ensures low { result.low ≡ low_of axis rect }
    ensures high { result.high ≡ high_of axis rect }
{
    match axis {
        Axis::Across => Span::across(rect),
        Axis::Upward => Span::upward(rect),
    }
}

/// Adds the value, if it lies between the ends of the span.
fn add_between(span: Span, value: i64, out: &mut Vec<i64>) -> Result<(), Memory>
    ensures { OnOk result (AddsBetween span.low span.high value out.old.items out.new.items) }
{
    if span.low < value && value < span.high {
        out.push(value)?;
    }
    Ok(())
}

/// The places at which edges of the boxes cross the axis within the area.
fn edges(alloc: Global, axis: Axis, area: Rect, boxes: &[Rect]) -> Result<Vec<i64>, Memory>
    ensures { IfOk result (λ places. AreEdges axis area boxes.now places.items) }
{
    let room = span_of(axis, area);
    let mut places = Vec::new(alloc);
    for rect in boxes {
        let taken = span_of(axis, *rect);
        add_between(room, taken.low, &mut places)?;
        add_between(room, taken.high, &mut places)?;
    }
    Ok(places)
}

/// One that has about as many before it as behind it.
fn middle(places: &mut [i64]) -> Option<i64>
    ensures { MatchOption result (length places.old ≡ 0) (Contains places.old) }
{
    if places.is_empty() {
        return None;
    }
    let half = places.len() / 2;
    let (_, place, _) = places.select_nth_unstable(half);
    Some(*place)
}

/// The place of an edge in the middle of those that cross the axis within the area.
pub fn place_of(
    alloc: Global,
    axis: Axis,
    area: Rect,
    boxes: &[Rect],
) -> Result<Option<i64>, Memory>
    ensures { IfOk result (λ place. MatchOption place (HaveNoEdge axis area boxes.now) (IsPlaceWithin axis area)) }
{
    let mut places = edges(alloc, axis, area, boxes)?;
    Ok(middle(&mut places))
}
