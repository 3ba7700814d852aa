ghost use Rattle.std.specs.Prelude.{◌≡◌, pos, ◌≤ℤ◌, ◌<ℤ◌, ◌+ℤ◌, ◌-ℤ◌};
ghost use Rattle.element_drawing.specs.Segments.{IsShortStretch, IsStretchExtent, turned_stretch, IsOver};

use crate::extent::AxisExtent;
use or_geom::Rect;

/// What a segment of a path takes of one axis, in nanometres: from where to where, and how much longer its box is
/// before and after.
#[derive(Clone, Copy)]
pub struct Stretch {
    pub from: i64,
    pub to: i64,
    pub before: i64,
    pub after: i64,
}

fn turned(s: Stretch) -> Stretch
    ensures { result ≡ turned_stretch s }
{
    Stretch {
        from: s.to,
        to: s.from,
        before: s.after,
        after: s.before,
    }
}

fn rising(s: Stretch) -> AxisExtent
    requires short { IsShortStretch s }
    requires ordered { (s.from -ℤ s.before) <ℤ (s.to +ℤ s.after) }
    ensures low { result.low ≡ s.from -ℤ s.before }
    ensures high { result.high ≡ s.to +ℤ s.after }
{
    AxisExtent {
        low: s.from - s.before,
        high: s.to + s.after,
    }
}

/// What the box takes of the axis.
pub fn extent_of(s: Stretch) -> AxisExtent
    requires short { IsShortStretch s }
    requires some { s.from ≡ s.to → pos 0 <ℤ s.before }
    ensures { IsStretchExtent s result }
{
    if s.from <= s.to {
        rising(s)
    } else {
        rising(turned(s))
    }
}

/// The rectangle that takes these numbers of the axes.
pub fn rect_over(across: AxisExtent, upward: AxisExtent) -> Rect
    ensures { IsOver across upward result }
{
    Rect {
        x1: across.low,
        y1: upward.low,
        x2: across.high,
        y2: upward.high,
    }
}
