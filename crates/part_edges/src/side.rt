ghost use Rattle.std.specs.Prelude.{◌≡◌};
ghost use Rattle.leaf_shapes.specs.declared.fit.Fit.{Fit};
ghost use Rattle.part_edges.specs.PartPins.{is_at_side, reaches};

use leaf_shapes::Fit;
use or_geom::Rect;

/// The lower side of a part, or its upper one, which is so high above the lower one, in nanometres.
#[derive(Clone, Copy, Debug)]
pub enum PartSide {
    Lower,
    Upper { height: i64 },
}

impl PartSide {
    /// Whether the rectangle ends at the side.
    pub fn is_met(self, rect: Rect) -> bool
        ensures { result ≡ reaches self rect.y1 rect.y2 }
    {
        match self {
            PartSide::Lower => rect.y1 == 0,
            PartSide::Upper { height } => rect.y2 == height,
        }
    }
}

/// Whether a shape that lies so reaches its cell's upper or lower side.
pub fn is_at_side(fit: Fit) -> bool
    ensures { result ≡ is_at_side fit }
{
    matches!(fit, Fit::Top | Fit::Bottom | Fit::TopAndBottom)
}
