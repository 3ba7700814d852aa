ghost use Rattle.std.specs.Prelude.{◌≤ℤ◌, ◌^◌, pos};
ghost use Rattle.or_geom.specs.Distance.{IsReachable, IsReachableSpan, IsLeastDist2, IsLeastDistance};

use crate::shape::Rect;
use crate::span::Span;

/// How far two spans are apart, 0 where they meet.
fn distance(a: Span, b: Span) -> i64
    requires first { IsReachableSpan a }
    requires second { IsReachableSpan b }
    ensures least { IsLeastDistance a b result }
    ensures bound { result ≤ℤ pos (2 ^ 41) }
{
    if a.high < b.low {
        b.low - a.high
    } else if b.high < a.low {
        a.low - b.high
    } else {
        0
    }
}

/// The squared Euclidean distance of two rectangles, in square nanometres: the least of a point of the one from a point
/// of the other, and 0 where they meet. Coordinates are within 2^40, so that it fits.
pub fn dist2(a: Rect, b: Rect) -> i128
    requires first { IsReachable a }
    requires second { IsReachable b }
    ensures { IsLeastDist2 a b result }
{
    let dx = i128::from(distance(Span::across(a), Span::across(b)));
    let dy = i128::from(distance(Span::upward(a), Span::upward(b)));
    dx * dx + dy * dy
}
