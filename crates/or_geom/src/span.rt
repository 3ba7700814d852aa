ghost use Rattle.std.specs.Prelude.{◌≡◌, ◌<ℤ◌};

use crate::shape::Rect;

/// What a rectangle takes of one axis, in nanometres.
#[derive(Clone, Copy)]
pub struct Span {
    pub low: i64,
    pub high: i64,
    pub ghost ordered: { low <ℤ high },
}

impl Span {
    ghost use Rattle.or_geom.specs.Span.{across, upward};

    /// What the rectangle takes of the x axis.
    pub fn across(rect: Rect) -> Span
        ensures { result ≡ across rect }
    {
        Span {
            low: rect.x1,
            high: rect.x2,
        }
    }

    /// What the rectangle takes of the y axis.
    pub fn upward(rect: Rect) -> Span
        ensures { result ≡ upward rect }
    {
        Span {
            low: rect.y1,
            high: rect.y2,
        }
    }
}
