ghost use Rattle.std.specs.Prelude.{◌≡◌, ◌<ℤ◌, ◌≤ℤ◌, ◌-ℤ◌, ◌^◌, pos};
ghost use Rattle.std.specs.Int.{int_max};
ghost use Rattle.or_geom.specs.Distance.{IsNear, IsReachable};
ghost use Rattle.tile_checker.specs.Minimum.{IsMinimum};

use or_geom::{Point, Rect};

/// The boxes that are to be tried round a rectangle: those with the least sides that contain it and meet the minimum.
/// Their lower left corners lie between `low` and `high`.
#[derive(Clone, Copy)]
pub struct Frame {
    pub low: Point,
    pub high: Point,
    pub width: i64,
    pub height: i64,
    pub ghost wide: { pos 0 <ℤ width },
    pub ghost tall: { pos 0 <ℤ height },
    pub ghost narrow: { width ≤ℤ pos (2 ^ 42) },
    pub ghost flat: { height ≤ℤ pos (2 ^ 42) },
    pub ghost near_x: { IsNear high.x },
    pub ghost near_y: { IsNear high.y },
}

/// The width of the rectangle, or the minimum where that is more.
fn least_width(rect: Rect, min: i64) -> i64
    requires reach { IsReachable rect }
    requires minimum { IsMinimum min }
    ensures is { result ≡ int_max min (rect.x2 -ℤ rect.x1) }
    ensures positive { pos 0 <ℤ result }
    ensures bounded { result ≤ℤ pos (2 ^ 42) }
{
    let width = rect.x2 - rect.x1;
    if width < min {
        return min;
    }
    width
}

/// The height of the rectangle, or the minimum where that is more.
fn least_height(rect: Rect, min: i64) -> i64
    requires reach { IsReachable rect }
    requires minimum { IsMinimum min }
    ensures is { result ≡ int_max min (rect.y2 -ℤ rect.y1) }
    ensures positive { pos 0 <ℤ result }
    ensures bounded { result ≤ℤ pos (2 ^ 42) }
{
    let height = rect.y2 - rect.y1;
    if height < min {
        return min;
    }
    height
}

impl Frame {
    ghost use Rattle.tile_checker.specs.Frame.{IsFrame};

    /// The boxes to be tried round the rectangle.
    pub fn around(rect: Rect, min: i64) -> Frame
        requires reach { IsReachable rect }
        requires minimum { IsMinimum min }
        ensures { IsFrame min rect result }
    {
        let width = least_width(rect, min);
        let height = least_height(rect, min);
        Frame {
            low: Point {
                x: rect.x2 - width,
                y: rect.y2 - height,
            },
            high: Point {
                x: rect.x1,
                y: rect.y1,
            },
            width,
            height,
        }
    }
}
