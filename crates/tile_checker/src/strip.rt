ghost use Rattle.std.specs.Prelude.{◌≤ℤ◌, ◌<ℤ◌, ◌+ℤ◌};
ghost use Rattle.or_geom.specs.Covered.{HasCell};
ghost use Rattle.shape_bins.specs.Layers.{rects_on};
ghost use Rattle.tile_checker.specs.Strips.{IsFrameHull, HaveCell, IsRaisedBy, IsLoweredBy, HasCommonRows};
ghost use Rattle.tile_checker.specs.Strips.{IsStripThrough, IsUpwardStrip, IsDownward, IsStripAt};

use crate::frame::Frame;
use or_geom::{Point, Rect};
use shape_bins::Bins;

/// Columns of cells from `left` to `right`, with their rows from `bottom` to `top`. It may be empty.
#[derive(Clone, Copy)]
pub struct Strip {
    pub left: i64,
    pub right: i64,
    pub bottom: i64,
    pub top: i64,
}

/// The strip with the rectangle's columns alone, up to its upper side or the hull's.
fn raised(strip: Strip, rect: Rect, hull: Rect) -> Strip
    ensures { IsRaisedBy hull strip rect result }
{
    Strip {
        left: strip.left.max(rect.x1),
        right: strip.right.min(rect.x2),
        bottom: strip.bottom,
        top: rect.y2.min(hull.y2),
    }
}

/// The same down to its lower side.
fn lowered(strip: Strip, rect: Rect, hull: Rect) -> Strip
    ensures { IsLoweredBy hull strip rect result }
{
    Strip {
        left: strip.left.max(rect.x1),
        right: strip.right.min(rect.x2),
        bottom: rect.y1.max(hull.y1),
        top: strip.top,
    }
}

/// The columns of the second strip, with the rows that both have.
pub fn within(a: Strip, b: Strip) -> Strip
    ensures { HasCommonRows a b result }
{
    Strip {
        left: b.left,
        right: b.right,
        bottom: a.bottom.max(b.bottom),
        top: a.top.min(b.top),
    }
}

/// What the layer covers from the cell up, as far as the cell's column goes, with the columns beside it that the same
/// shapes cover.
fn upward(bins: &Bins, layer: u16, hull: Rect, cell: Point) -> Strip
    requires { HasCell hull cell.x cell.y }
    ensures { IsUpwardStrip (rects_on layer bins.now) hull cell result }
{
    let mut strip = Strip {
        left: hull.x1,
        right: hull.x2,
        bottom: cell.y,
        top: cell.y,
    };
    while strip.top < hull.y2 {
        let at = Point {
            x: cell.x,
            y: strip.top,
        };
        let Some(rect) = bins.rect_at(layer, at) else {
            return strip;
        };
        strip = raised(strip, rect, hull);
    }
    strip
}

/// The strip, continued down as far as the column is covered.
fn downward(bins: &Bins, layer: u16, hull: Rect, x: i64, above: Strip) -> Strip
    requires { IsStripThrough (rects_on layer bins.now) hull x above }
    ensures { IsDownward (rects_on layer bins.now) hull x above result }
{
    let mut strip = above;
    while hull.y1 < strip.bottom {
        let at = Point {
            x,
            y: strip.bottom - 1,
        };
        let Some(rect) = bins.rect_at(layer, at) else {
            return strip;
        };
        strip = lowered(strip, rect, hull);
    }
    strip
}

/// What the layer covers at this column, up and down from the frame's high corner, with the columns beside it that the
/// same shapes cover.
pub fn strip_at(bins: &Bins, layer: u16, frame: Frame, hull: Rect, x: i64) -> Strip
    requires frame { HaveCell frame }
    requires hull { IsFrameHull frame hull }
    requires left { frame.low.x ≤ℤ x }
    requires right { x <ℤ (frame.high.x +ℤ frame.width) }
    ensures { IsStripAt (rects_on layer bins.now) frame x result }
{
    let cell = Point { x, y: frame.high.y };
    let above = upward(bins, layer, hull, cell);
    downward(bins, layer, hull, x, above)
}
