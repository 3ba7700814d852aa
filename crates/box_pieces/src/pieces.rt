ghost use Rattle.std.specs.Prelude.{◌↔◌, ◌∷◌, [], ℤ, IfOk, OnOk};
ghost use Rattle.or_geom.specs.Covered.{HasCellInSome};
ghost use Rattle.box_pieces.specs.Added.{AreAdded, AreAddedIn};
ghost use Rattle.box_pieces.specs.Cells.{AllHold, IsCellInside, IsCellOutside};

use crate::around::add_cut;
use crate::common::{bounds, within};
use crate::cut::{cut_of, halves};
use crate::merge::merged;
use or_geom::{Memory, Rect};
use std::alloc::Global;

/// The pieces of boxes that were cut by others: what lies in one of the others, and what lies in none.
#[derive(Drop)]
pub struct Pieces {
    pub inside: Vec<Rect>,
    pub outside: Vec<Rect>,
}

/// Adds the pieces into which one rectangle cuts the boxes.
fn add_cuts(boxes: &[Rect], by: Rect, out: &mut Pieces) -> Result<(), Memory>
    ensures { OnOk result (AreAdded boxes.now (by ∷ []) out.old out.new) }
{
    for rect in boxes {
        add_cut(*rect, by, out)?;
    }
    Ok(())
}

/// Adds the boxes of an area that no edge of the cutters crosses: it lies in one of them, or in none.
fn add_whole(boxes: &[Rect], by: &[Rect], out: &mut Pieces) -> Result<(), Memory>
    requires { AllHold by.now boxes.now }
    ensures { OnOk result (AreAdded boxes.now by.now out.old out.new) }
{
    if by.is_empty() {
        return Ok(out.outside.extend_from_slice(boxes)?);
    }
    Ok(out.inside.extend_from_slice(boxes)?)
}

/// Adds the pieces of the boxes in the area.
fn add_pieces(
    alloc: Global,
    area: Rect,
    boxes: &[Rect],
    by: &[Rect],
    out: &mut Pieces,
) -> Result<(), Memory>
    ensures { OnOk result (AreAddedIn area boxes.now by.now out.old out.new) }
{
    let boxes = within(alloc, area, boxes)?;
    if boxes.is_empty() {
        return Ok(());
    }
    let by = within(alloc, area, by)?;
    let Some(cut) = cut_of(alloc, area, &by, &boxes)? else {
        return add_whole(&boxes, &by, out);
    };
    if let [only] = &by[..] {
        return add_cuts(&boxes, *only, out);
    }
    let (low, high) = halves(area, cut);
    add_pieces(alloc, low, &boxes, &by, out)?;
    add_pieces(alloc, high, &boxes, &by, out)
}

/// The pieces of the boxes: those that lie in one of the others, and those that lie in none. Where boxes lie on one
/// another, few of their pieces do.
pub fn split(alloc: Global, boxes: &[Rect], by: &[Rect]) -> Result<Pieces, Memory>
    ensures inside { IfOk result (λ pieces. (x y : ℤ) → HasCellInSome pieces.inside.items x y
        ↔ IsCellInside boxes.now by.now x y) }
    ensures outside { IfOk result (λ pieces. (x y : ℤ) → HasCellInSome pieces.outside.items x y
        ↔ IsCellOutside boxes.now by.now x y) }
{
    let boxes = merged(alloc, boxes)?;
    let by = merged(alloc, by)?;
    let mut pieces = Pieces {
        inside: Vec::new(alloc),
        outside: Vec::new(alloc),
    };
    if let Some(area) = bounds(&boxes) {
        add_pieces(alloc, area, &boxes, &by, &mut pieces)?;
    }
    Ok(pieces)
}
