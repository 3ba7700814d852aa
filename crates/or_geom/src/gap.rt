ghost use Rattle.or_geom.specs.Distance.{IsReachable, IsReachableSpan};
ghost use Rattle.or_geom.specs.Gap.{IsGap, IsGapBox};
ghost use Rattle.or_geom.specs.Joined.{AreJoined};

use crate::shape::Rect;
use crate::span::Span;

/// What lies between two spans, or what they share.
fn gap(a: Span, b: Span) -> Span
    requires first { IsReachableSpan a }
    requires second { IsReachableSpan b }
    ensures { IsGap a b result }
{
    if a.high < b.low {
        return Span {
            low: a.high,
            high: b.low,
        };
    }
    if b.high < a.low {
        return Span {
            low: b.high,
            high: a.low,
        };
    }
    if a.high == b.low {
        return Span {
            low: a.high - 1,
            high: a.high + 1,
        };
    }
    if b.high == a.low {
        return Span {
            low: b.high - 1,
            high: b.high + 1,
        };
    }
    Span {
        low: a.low.max(b.low),
        high: a.high.min(b.high),
    }
}

/// The box between two rectangles that aren't joined: on each axis what lies between them where they are apart, and
/// what they share where they aren't. A side that would have length zero is widened by one unit on both sides.
/// Coordinates are within 2^40.
pub fn gap_box(a: Rect, b: Rect) -> Rect
    requires first { IsReachable a }
    requires second { IsReachable b }
    requires apart { AreJoined a b → ⊥ }
    ensures { IsGapBox a b result }
{
    let x = gap(Span::across(a), Span::across(b));
    let y = gap(Span::upward(a), Span::upward(b));
    Rect {
        x1: x.low,
        y1: y.low,
        x2: x.high,
        y2: y.high,
    }
}
