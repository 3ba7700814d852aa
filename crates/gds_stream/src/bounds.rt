ghost use Rattle.std.specs.Prelude.{IsTrue};
ghost use Rattle.gds_stream.specs.Bounds.{AreCommonBounds, AreEmptyBounds, HoldsPoints, IsWidened};

use or_geom::Point;

/// The closed box from one corner to another; it is empty where the second lies below or left of the first.
#[derive(Clone, Copy)]
pub(crate) struct Bounds {
    low: Point,
    high: Point,
}

/// The box round what it has and a point.
fn with_point(bounds: Bounds, point: Point) -> Bounds
    ensures { IsWidened bounds point result }
{
    Bounds {
        low: Point {
            x: bounds.low.x.min(point.x),
            y: bounds.low.y.min(point.y),
        },
        high: Point {
            x: bounds.high.x.max(point.x),
            y: bounds.high.y.max(point.y),
        },
    }
}

/// A box round some points.
pub(crate) fn bounds_of(points: &[Point]) -> Bounds
    ensures { HoldsPoints result points.now }
{
    let mut bounds = Bounds {
        low: Point {
            x: i64::MAX,
            y: i64::MAX,
        },
        high: Point {
            x: i64::MIN,
            y: i64::MIN,
        },
    };
    for point in points {
        bounds = with_point(bounds, *point);
    }
    bounds
}

/// What two boxes have in common.
pub(crate) fn common(e: Bounds, f: Bounds) -> Bounds
    ensures { AreCommonBounds e f result }
{
    Bounds {
        low: Point {
            x: e.low.x.max(f.low.x),
            y: e.low.y.max(f.low.y),
        },
        high: Point {
            x: e.high.x.min(f.high.x),
            y: e.high.y.min(f.high.y),
        },
    }
}

pub(crate) fn is_empty(bounds: Bounds) -> bool
    ensures { IsTrue result → AreEmptyBounds bounds }
{
    bounds.high.x < bounds.low.x || bounds.high.y < bounds.low.y
}
