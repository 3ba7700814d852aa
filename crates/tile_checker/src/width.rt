ghost use Rattle.std.specs.Prelude.{◌↔◌, ◌≤ℤ◌, IsTrue, IfOk, OnOk, Contains};
ghost use Rattle.or_geom.specs.Distance.{IsReachable};
ghost use Rattle.or_geom.specs.Adds.{Adds};
ghost use Rattle.or_geom.specs.Reachable.{AreReachable};
ghost use Rattle.shape_bins.specs.Layers.{rects_on};
ghost use Rattle.tile_checker.specs.Breaks.{HasWidth, IsAsWide};
ghost use Rattle.tech_rules.specs.declared.tech.Rule.TheVariants as kind;
ghost use Rattle.tile_checker.specs.Firsts.{IsAt, IsFrom};
ghost use Rattle.tile_checker.specs.Strips.{IsFrameHull};
ghost use Rattle.tile_checker.specs.Frame.{HasBoxAt};
ghost use Rattle.tile_checker.specs.WideArea.{IsWideArea, IsSeen};
ghost use Rattle.tile_checker.specs.Seen.{AreTrueNotes};

use crate::first::First;
use crate::frame::Frame;
use crate::minimum::Minimum;
use crate::notes::Notes;
use crate::sides::covered_box;
use crate::violation::Violation;
use or_geom::{Memory, Point, Rect, holds};
use shape_bins::Bins;
use std::alloc::Global;

/// A width rule with its number.
#[derive(Clone, Copy)]
pub struct WidthRule {
    pub number: u32,
    pub layer: u16,
    pub min: Minimum,
}

/// An area that the layer covers, with both sides at least `least`.
#[derive(Clone, Copy)]
pub struct WideArea {
    pub layer: u16,
    pub least: i64,
    pub rect: Rect,
}

/// Whether both sides of the rectangle meet the minimum.
fn is_as_wide(rect: Rect, min: Minimum) -> bool
    requires { IsReachable rect }
    ensures { IsTrue result ↔ IsAsWide min.value rect }
{
    if rect.x2 - rect.x1 < min.value {
        return false;
    }
    if rect.y2 - rect.y1 < min.value {
        return false;
    }
    true
}

/// What the boxes of the frame take together.
fn hull(frame: Frame) -> Rect
    requires wide { frame.low.x ≤ℤ frame.high.x }
    requires tall { frame.low.y ≤ℤ frame.high.y }
    ensures { IsFrameHull frame result }
{
    Rect {
        x1: frame.low.x,
        y1: frame.low.y,
        x2: frame.high.x + frame.width,
        y2: frame.high.y + frame.height,
    }
}

/// Whether the area that was seen last shows that the rectangle has the width.
fn is_seen(_bins: &Bins, layer: u16, rect: Rect, min: Minimum, seen: Option<WideArea>) -> bool
    requires { IsSeen _bins.now seen }
    ensures { IsTrue result → HasWidth (rects_on layer _bins.now) min.value rect }
{
    let Some(area) = seen else {
        return false;
    };
    if area.layer != layer {
        return false;
    }
    if area.least < min.value {
        return false;
    }
    holds(area.rect, rect)
}

/// The covered box of the frame with this corner.
fn area_at(_bins: &Bins, layer: u16, frame: Frame, min: Minimum, corner: Point) -> WideArea
    requires wide { min.value ≤ℤ frame.width }
    requires tall { min.value ≤ℤ frame.height }
    requires stands { HasBoxAt (rects_on layer _bins.now) frame corner }
    ensures { IsWideArea _bins.now result }
{
    WideArea {
        layer,
        least: min.value,
        rect: Rect {
            x1: corner.x,
            y1: corner.y,
            x2: corner.x + frame.width,
            y2: corner.y + frame.height,
        },
    }
}

/// Whether some box covered by the layer contains the rectangle and has both sides at least the minimum. The last such
/// box is kept in `seen`, since the next shapes often lie in it too.
fn has_width(
    alloc: Global,
    bins: &Bins,
    layer: u16,
    rect: Rect,
    min: Minimum,
    seen: &mut Option<WideArea>,
) -> Result<bool, Memory>
    requires reach { IsReachable rect }
    requires own { Contains (rects_on layer bins.now) rect }
    requires seen { IsSeen bins.now seen.old }
    ensures seen { IsSeen bins.now seen.new }
    ensures width { IfOk result (λ yes. IsTrue yes ↔ HasWidth (rects_on layer bins.now) min.value rect) }
{
    if is_as_wide(rect, min) {
        return Ok(true);
    }
    if is_seen(bins, layer, rect, min, *seen) {
        return Ok(true);
    }
    let frame = Frame::around(rect, min.value);
    let found = covered_box(alloc, bins, layer, frame, hull(frame))?;
    let Some(corner) = found else {
        return Ok(false);
    };
    *seen = Some(area_at(bins, layer, frame, min, corner));
    Ok(true)
}

/// Adds the shape if it is of the layer and too narrow.
pub fn add_widths(
    bins: &Bins,
    rule: WidthRule,
    first: First,
    notes: &mut Notes,
) -> Result<(), Memory>
    requires reach { AreReachable bins.now }
    requires at { IsAt bins.now first }
    requires seen { AreTrueNotes bins.now notes.old }
    ensures seen { AreTrueNotes bins.now notes.new }
    ensures adds { OnOk result (Adds notes.old.found.items notes.new.found.items
        (IsFrom rule.number (kind.Width rule.layer rule.min.value) bins.now first)) }
{
    if first.shape.layer != rule.layer {
        return Ok(());
    }
    let rect = first.shape.rect;
    let seen = &mut notes.wide;
    if has_width(notes.alloc, bins, rule.layer, rect, rule.min, seen)? {
        return Ok(());
    }
    let narrow = Violation {
        rule: rule.number,
        first: first.shape,
        second: None,
    };
    Ok(notes.found.push(narrow)?)
}
