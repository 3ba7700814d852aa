ghost use Rattle.std.specs.Prelude.{◌≡◌, ◌∷◌, IfOk};
ghost use Rattle.std.specs.List.{AllByRecursion};
ghost use Rattle.rectilinear.specs.Simple.{AllStraight};
ghost use Rattle.gds_records.specs.Values.{IsShort};
ghost use Rattle.gds_library.specs.Values.{segments_from};
ghost use Rattle.gds_library.specs.Writable.{IsWritableTrack};
ghost use Rattle.element_drawing.specs.Paths.{AreBoxes, AreBoxesFrom, IsSegmentBox};
ghost use Rattle.element_drawing.specs.Segments.{IsShortSegment, IsShortStroke, IsStroke, segment_at};

use crate::stretch::{Stretch, extent_of, rect_over};
use or_geom::{Memory, Point, Rect};
use std::alloc::Global;

/// How a path is drawn, in nanometres: half its width, and how much longer its boxes are at its ends.
#[derive(Clone, Copy)]
struct Stroke {
    half: i64,
    last: i64,
}

/// Where the next segment begins, and how much longer its box is there.
#[derive(Clone, Copy)]
struct Tip {
    at: Point,
    before: i64,
}

/// A segment of a path: half the path's width, and how much longer the segment's box is at each end.
#[derive(Clone, Copy)]
struct Segment {
    from: Point,
    to: Point,
    half: i64,
    before: i64,
    after: i64,
}

fn upright_box(s: Segment) -> Rect
    requires short { IsShortSegment s }
    requires upright { s.from.x ≡ s.to.x }
    ensures { IsSegmentBox s.half s.before s.after s.from s.to result }
{
    let across = extent_of(Stretch {
        from: s.from.x,
        to: s.from.x,
        before: s.half,
        after: s.half,
    });
    let upward = extent_of(Stretch {
        from: s.from.y,
        to: s.to.y,
        before: s.before,
        after: s.after,
    });
    rect_over(across, upward)
}

fn level_box(s: Segment) -> Rect
    requires short { IsShortSegment s }
    requires level { s.from.y ≡ s.to.y }
    ensures { IsSegmentBox s.half s.before s.after s.from s.to result }
{
    let across = extent_of(Stretch {
        from: s.from.x,
        to: s.to.x,
        before: s.before,
        after: s.after,
    });
    let upward = extent_of(Stretch {
        from: s.from.y,
        to: s.from.y,
        before: s.half,
        after: s.half,
    });
    rect_over(across, upward)
}

fn segment_box(s: Segment) -> Rect
    requires { IsShortSegment s }
    ensures { IsSegmentBox s.half s.before s.after s.from s.to result }
{
    if s.from.x == s.to.x {
        upright_box(s)
    } else {
        level_box(s)
    }
}

/// The segment from the tip to a point. Its box is longer by half the width where other points follow.
fn segment_to(stroke: Stroke, tip: Tip, to: Point, others: &[Point]) -> Segment
    ensures { result ≡ segment_at stroke tip to others.now }
{
    let after = if others.is_empty() {
        stroke.last
    } else {
        stroke.half
    };
    Segment {
        from: tip.at,
        to,
        half: stroke.half,
        before: tip.before,
        after,
    }
}

/// The boxes of a path from its first point through the others.
fn boxes_of(
    alloc: Global,
    stroke: Stroke,
    first: Point,
    others: &[Point],
) -> Result<Vec<Rect>, Memory>
    requires stroke { IsShortStroke stroke }
    requires short { AllByRecursion IsShort (first ∷ others.now) }
    requires straight { AllStraight (segments_from first others.now) }
    ensures { IfOk result (λ boxes. AreBoxesFrom stroke.half stroke.last stroke.last first others.now boxes.items) }
{
    let mut boxes = Vec::new(alloc);
    let mut tip = Tip {
        at: first,
        before: stroke.last,
    };
    let mut rest = others;
    while let Some((to, after)) = rest.split_first() {
        boxes.push(segment_box(segment_to(stroke, tip, *to, after)))?;
        tip = Tip {
            at: *to,
            before: stroke.half,
        };
        rest = after;
    }
    Ok(boxes)
}

/// How a path of this kind and width is drawn.
fn stroke_of(kind: i16, width: i32, points: &[Point]) -> Stroke
    requires { IsWritableTrack kind width points.now }
    ensures drawn { IsStroke kind width result }
    ensures short { IsShortStroke result }
{
    let half = i64::from(width / 2);
    let last = if kind == 2 { half } else { 0 };
    Stroke { half, last }
}

/// The boxes of a path: one for each segment, in order.
pub fn path_boxes(
    alloc: Global,
    kind: i16,
    width: i32,
    points: &[Point],
) -> Result<Vec<Rect>, Memory>
    requires { IsWritableTrack kind width points.now }
    ensures { IfOk result (λ boxes. AreBoxes kind width points.now boxes.items) }
{
    let stroke = stroke_of(kind, width, points);
    let Some((first, others)) = points.split_first() else {
        return Ok(Vec::new(alloc));
    };
    boxes_of(alloc, stroke, *first, others)
}
