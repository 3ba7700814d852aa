ghost use Rattle.std.specs.Prelude.{◌≡◌, ◌↔◌, ◌≤ℤ◌, ◌+ℤ◌, ◌-ℤ◌, IsTrue, IfOk, MatchOption};
ghost use Rattle.std.specs.Int.{int_min};
ghost use Rattle.or_geom.specs.declared.shape.Point.{Point as Corner};
ghost use Rattle.shape_bins.specs.Layers.{rects_on};
ghost use Rattle.tile_checker.specs.Frame.{HasBoxAt};
ghost use Rattle.tile_checker.specs.Strips.{IsFrameHull, HaveCell, IsWindow, AreRights, EndsBefore, NoBoxAt};

use crate::frame::Frame;
use crate::strip::{Strip, strip_at, within};
use or_geom::{Memory, Point, Rect};
use shape_bins::Bins;
use std::alloc::Global;

/// Whether a box of the frame has room between the strip's bottom and its top.
fn has_room(strip: Strip, frame: Frame) -> bool
    requires { strip.bottom ≤ℤ frame.high.y }
    ensures { IsTrue result ↔ ((strip.bottom +ℤ frame.height) ≤ℤ strip.top) }
{
    if strip.top < strip.bottom + frame.height {
        return false;
    }
    true
}

/// The corner of the highest box of the frame that stands at `x` and has its top in the strip.
fn highest(strip: Strip, frame: Frame, x: i64) -> Point
    requires low { strip.bottom ≤ℤ frame.high.y }
    requires room { (strip.bottom +ℤ frame.height) ≤ℤ strip.top }
    ensures x { result.x ≡ x }
    ensures y { result.y ≡ int_min frame.high.y (strip.top -ℤ frame.height) }
{
    Point {
        x,
        y: frame.high.y.min(strip.top - frame.height),
    }
}

/// The strips to the right of the frame's high corner, one after another. The rows of each are those that all columns
/// up to it have in common, and the last is the last in which a box has room.
fn right_strips(
    alloc: Global,
    bins: &Bins,
    layer: u16,
    frame: Frame,
    hull: Rect,
) -> Result<Vec<Strip>, Memory>
    requires frame { HaveCell frame }
    requires hull { IsFrameHull frame hull }
    ensures { IfOk result (λ strips. AreRights (rects_on layer bins.now) frame strips.items
        (frame.high.x +ℤ frame.width)) }
{
    let mut strips = Vec::new(alloc);
    let mut window = Strip {
        left: frame.high.x,
        right: frame.high.x,
        bottom: hull.y1,
        top: hull.y2,
    };
    while window.right < hull.x2 {
        let next = within(window, strip_at(bins, layer, frame, hull, window.right));
        if !has_room(next, frame) {
            return Ok(strips);
        }
        window = Strip {
            left: window.right,
            right: next.right,
            bottom: next.bottom,
            top: next.top,
        };
        strips.push(window)?;
    }
    Ok(strips)
}

/// Of the strips, those that begin before the right side of a box that stands at `x`.
fn strips_below<'s>(
    _bins: &Bins,
    _layer: u16,
    frame: Frame,
    strips: &'s [Strip],
    x: i64,
) -> &'s [Strip]
    requires right { x ≤ℤ frame.high.x }
    requires rights { AreRights (rects_on _layer _bins.now) frame strips.now (x +ℤ frame.width) }
    ensures rights { AreRights (rects_on _layer _bins.now) frame result.now (x +ℤ frame.width) }
    ensures before { EndsBefore result.now (x +ℤ frame.width) }
{
    let to = x + frame.width;
    let mut kept = strips;
    while let Some((last, rest)) = kept.split_last() {
        if last.left < to {
            return kept;
        }
        kept = rest;
    }
    kept
}

/// A covered box of the frame that stands at the window's left side, where the window reaches to the frame's high
/// corner.
fn box_at(_bins: &Bins, _layer: u16, frame: Frame, window: Strip, strips: &[Strip]) -> Option<Point>
    requires frame { HaveCell frame }
    requires left { frame.low.x ≤ℤ window.left }
    requires right { window.left ≤ℤ frame.high.x }
    requires window { IsWindow (rects_on _layer _bins.now) frame window.left frame.high.x window.bottom window.top }
    requires rights { AreRights (rects_on _layer _bins.now) frame strips.now (window.left +ℤ frame.width) }
    requires before { EndsBefore strips.now (window.left +ℤ frame.width) }
    ensures { MatchOption result (NoBoxAt (rects_on _layer _bins.now) frame window.left)
        (HasBoxAt (rects_on _layer _bins.now) frame) }
{
    let Some((last, _rest)) = strips.split_last() else {
        return None;
    };
    if last.right < window.left + frame.width {
        return None;
    }
    let both = within(window, *last);
    if !has_room(both, frame) {
        return None;
    }
    Some(highest(both, frame, window.left))
}

/// A box of the frame that the layer covers. Columns are looked at from the frame's high corner on, those to the right
/// first: the further a box stands to the left, the fewer of these it has.
pub fn covered_box(
    alloc: Global,
    bins: &Bins,
    layer: u16,
    frame: Frame,
    hull: Rect,
) -> Result<Option<Point>, Memory>
    requires frame { HaveCell frame }
    requires hull { IsFrameHull frame hull }
    ensures { IfOk result (λ found. MatchOption found ((corner : Corner)
        → HasBoxAt (rects_on layer bins.now) frame corner → ⊥) (HasBoxAt (rects_on layer bins.now) frame)) }
{
    let strips = right_strips(alloc, bins, layer, frame, hull)?;
    let mut kept = strips.as_slice();
    let mut window = Strip {
        left: frame.high.x,
        right: frame.high.x,
        bottom: hull.y1,
        top: hull.y2,
    };
    'leftward: loop {
        kept = strips_below(bins, layer, frame, kept, window.left);
        if let Some(corner) = box_at(bins, layer, frame, window, kept) {
            return Ok(Some(corner));
        }
        if window.left <= frame.low.x {
            return Ok(None);
        }
        let next = within(window, strip_at(bins, layer, frame, hull, window.left - 1));
        if !has_room(next, frame) {
            return Ok(None);
        }
        window = next;
    }
}
