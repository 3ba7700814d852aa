ghost use Rattle.std.specs.Prelude.{◌≡◌, ◌+ℤ◌, ◌-ℤ◌, IfOk, IfSome};
ghost use Rattle.shape_bins.specs.Clear.{HasClearance, AreClear, IsGrownBelow};
ghost use Rattle.shape_bins.specs.Forest.{IsForest};

use crate::forest::Forest;
use crate::query::Query;
use crate::walk::some_near;
use bumpalo::Bump;
use or_geom::{Memory, Rect, Shape};

/// A box that its layer covers, and its clearance: no shape of the layer that the box doesn't hold comes nearer to it
/// than that, in nanometres, across and upward. A clearance of 0 says nothing.
#[derive(Clone, Copy)]
pub struct ClearBox {
    pub rect: Rect,
    pub clearance: i64,
}

/// No greater clearance is looked for than so many times the box's smaller side: few rules ask for more, and what lies
/// far away needn't be looked at.
const MOST_SIDES: i64 = 4;

/// So many shapes that are in the way are looked at, each nearer than the one before. Where a box has neighbours at as
/// many distances, no clearance is known.
const MOST_TRIES: u32 = 4;

/// The smaller side of the rectangle.
fn smaller_side(rect: Rect) -> i64 {
    let width = rect.x2.saturating_sub(rect.x1);
    let height = rect.y2.saturating_sub(rect.y1);
    width.min(height)
}

/// How far the rectangles lie apart, across or upward, whichever is more.
fn gap(a: Rect, b: Rect) -> i64 {
    let across = b.x1.saturating_sub(a.x2).max(a.x1.saturating_sub(b.x2));
    let upward = b.y1.saturating_sub(a.y2).max(a.y1.saturating_sub(b.y2));
    across.max(upward)
}

/// The sum, if it fits 64 bits.
fn sum(a: i64, b: i64) -> Option<i64>
    ensures { IfSome result (λ s. s ≡ a +ℤ b) }
{
    a.checked_add(b)
}

/// The difference, if it fits 64 bits.
fn difference(a: i64, b: i64) -> Option<i64>
    ensures { IfSome result (λ d. d ≡ a -ℤ b) }
{
    a.checked_sub(b)
}

/// The rectangle, grown on all sides by one less than the clearance, if that is positive and all fits 64 bits: what
/// comes nearer than the clearance meets it.
fn grown_below(rect: Rect, clearance: i64) -> Option<Rect>
    ensures { IfSome result (IsGrownBelow clearance rect) }
{
    if clearance < 1 {
        return None;
    }
    let reach = clearance - 1;
    Some(Rect {
        x1: difference(rect.x1, reach)?,
        y1: difference(rect.y1, reach)?,
        x2: sum(rect.x2, reach)?,
        y2: sum(rect.y2, reach)?,
    })
}

/// The clearance of a box.
fn clearance_of(forest: Forest<'_>, filled: Shape) -> i64
    requires { IsForest forest }
    ensures { HasClearance forest.entry.shapes.now filled.layer filled.rect result }
{
    let mut clearance = smaller_side(filled.rect).saturating_mul(MOST_SIDES);
    for _ in 0..MOST_TRIES {
        let Some(area) = grown_below(filled.rect, clearance) else {
            return 0;
        };
        let outside = Query::MeetsOutside {
            area,
            held: filled.rect,
        };
        let Some(place) = some_near(forest, filled.layer, outside) else {
            return clearance;
        };
        clearance = gap(filled.rect, forest.shapes[place].rect);
    }
    0
}

/// The clearances of boxes, in the arena.
pub fn clearances_of<'b>(
    bump: &'b Bump,
    forest: Forest<'_>,
    boxes: &[Shape],
) -> Result<Vec<i64, &'b Bump>, Memory>
    requires { IsForest forest }
    ensures { IfOk result (λ clearances. AreClear forest.entry.shapes.now boxes.now clearances.items) }
{
    let mut clearances = Vec::with_capacity(bump, boxes.len())?;
    for index in 0..boxes.len() {
        clearances.push(clearance_of(forest, boxes[index]))?;
    }
    Ok(clearances)
}
