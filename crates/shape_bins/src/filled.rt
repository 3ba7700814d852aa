ghost use Rattle.std.specs.Prelude.{◌↔◌, ◌≤◌, [], ◌∷◌, length, IsTrue, IfOk, IfSome, OnOk};
ghost use Rattle.or_geom.specs.Covered.{IsCovered};
ghost use Rattle.shape_bins.specs.Filled.{AreFilledBoxes, AreStacked, AreBeside, AreJoinedTo, AddsFilled, AddsBoxes};
ghost use Rattle.shape_bins.specs.Filled.{AreJoinedFrom, AreJoinedOf};

use crate::runs::runs_of;
use bumpalo::Bump;
use or_geom::{Memory, Rect, Shape, around};
use std::alloc::Global;

/// So many shapes have to fill a box for it to be kept. Boxes of fewer save little.
pub const MANY: u64 = 16;

/// A box that shapes of its layer fill, and how many they are.
#[derive(Clone, Copy)]
pub struct Filled {
    pub shape: Shape,
    pub count: u64,
}

/// Whether the rectangles are as wide as each other and one stands on the other, or they share area.
fn are_stacked(a: Rect, b: Rect) -> bool
    ensures { IsTrue result ↔ AreStacked a b }
{
    if a.x1 != b.x1 {
        return false;
    }
    if a.x2 != b.x2 {
        return false;
    }
    if a.y2 < b.y1 {
        return false;
    }
    if b.y2 < a.y1 {
        return false;
    }
    true
}

/// Whether the rectangles are as tall as each other and one stands beside the other, or they share area.
pub fn are_beside(a: Rect, b: Rect) -> bool
    ensures { IsTrue result ↔ AreBeside a b }
{
    if a.y1 != b.y1 {
        return false;
    }
    if a.y2 != b.y2 {
        return false;
    }
    if a.x2 < b.x1 {
        return false;
    }
    if b.x2 < a.x1 {
        return false;
    }
    true
}

/// The box that the two rectangles fill together, if one stands on the other or beside it.
fn joint(a: Rect, b: Rect) -> Option<Rect>
    ensures { IfSome result (λ filled. IsCovered filled (a ∷ b ∷ [])) }
{
    if are_stacked(a, b) {
        return Some(around(a, b));
    }
    if are_beside(a, b) {
        return Some(around(a, b));
    }
    None
}

/// The box that two boxes of one layer fill together.
pub fn both(a: Filled, b: Filled) -> Option<Filled>
    ensures { IfSome result (AreJoinedTo a b) }
{
    if a.shape.layer != b.shape.layer {
        return None;
    }
    let rect = joint(a.shape.rect, b.shape.rect)?;
    Some(Filled {
        shape: Shape {
            layer: a.shape.layer,
            rect,
        },
        count: a.count.saturating_add(b.count),
    })
}

/// Adds a box, joined with the last one if both fill a box together. A last one that is a single shape is dropped: most
/// shapes of most layers fill nothing with others, and sorting them would cost more than all else.
fn add_filled(filled: Filled, out: &mut Vec<Filled>) -> Result<(), Memory>
    ensures { OnOk result (AddsFilled filled out.old.items out.new.items) }
{
    let Some(last) = out.pop() else {
        return Ok(out.push(filled)?);
    };
    if let Some(joined) = both(last, filled) {
        return Ok(out.push(joined)?);
    }
    if last.count < 2 {
        return Ok(out.push(filled)?);
    }
    out.push(last)?;
    Ok(out.push(filled)?)
}

/// The shapes, joined where one follows in the list on another with which it fills a box.
fn columns_of(alloc: Global, shapes: &[Shape]) -> Result<Vec<Filled>, Memory>
    ensures { IfOk result (λ out. AreJoinedFrom shapes.now out.items) }
{
    let mut out = Vec::new(alloc);
    for shape in shapes {
        let filled = Filled {
            shape: *shape,
            count: 1,
        };
        add_filled(filled, &mut out)?;
    }
    Ok(out)
}

/// The boxes, joined in the same way.
fn join_neighbours(alloc: Global, boxes: &[Filled]) -> Result<Vec<Filled>, Memory>
    ensures { IfOk result (λ out. AreJoinedOf boxes.now out.items) }
{
    let mut out = Vec::new(alloc);
    for filled in boxes {
        add_filled(*filled, &mut out)?;
    }
    Ok(out)
}

/// Boxes that the shapes fill: columns of shapes, rows of these, and columns of rows. The shapes come in order. Not all
/// such boxes are found: only neighbours in these two orders are joined, and most shapes that are joined with none are
/// dropped.
fn all_filled(alloc: Global, shapes: &[Shape]) -> Result<Vec<Filled>, Memory>
    ensures { IfOk result (λ out. AreJoinedFrom shapes.now out.items) }
{
    let mut columns = columns_of(alloc, shapes)?;
    columns.sort_unstable_by_key(|f| (
        f.shape.layer,
        f.shape.rect.y1,
        f.shape.rect.y2,
        f.shape.rect.x1,
    ));
    let mut rows = join_neighbours(alloc, &columns)?;
    rows.sort_unstable_by_key(|f| (
        f.shape.layer,
        f.shape.rect.x1,
        f.shape.rect.x2,
        f.shape.rect.y1,
    ));
    join_neighbours(alloc, &rows)
}

/// Adds the boxes that many shapes fill, at most so many in all.
fn add_many(filled: &[Filled], most: usize, boxes: &mut Vec<Shape, &Bump>) -> Result<(), Memory>
    requires { length boxes.old.items ≤ most }
    ensures few { OnOk result (length boxes.new.items ≤ most) }
    ensures filled { OnOk result (AddsBoxes filled.now boxes.old.items boxes.new.items) }
{
    for one in filled {
        if one.count < MANY {
            continue;
        }
        if boxes.len() == most {
            break;
        }
        boxes.push(one.shape)?;
    }
    Ok(())
}

/// Boxes that many shapes fill together, in the arena: first those of `all_filled`, then those of `runs_of`. A row of
/// shapes that stands alone is in both.
pub fn filled_boxes<'b>(
    alloc: Global,
    bump: &'b Bump,
    shapes: &[Shape],
) -> Result<Vec<Shape, &'b Bump>, Memory>
    ensures few { IfOk result (λ boxes. length boxes.items ≤ length shapes.now) }
    ensures filled { IfOk result (λ boxes. AreFilledBoxes shapes.now boxes.items) }
{
    let blocks = all_filled(alloc, shapes)?;
    let runs = runs_of(alloc, shapes)?;
    let mut boxes = Vec::new(bump);
    add_many(&blocks, shapes.len(), &mut boxes)?;
    add_many(&runs, shapes.len(), &mut boxes)?;
    Ok(boxes)
}
