ghost use Rattle.std.specs.Prelude.{◌↔◌, ℤ, IfOk, IfSome, OnOk};
ghost use Rattle.or_geom.specs.Covered.{HasCellInSome};
ghost use Rattle.box_pieces.specs.Cells.{AddsCells, IsInArea};
ghost use Rattle.box_pieces.specs.Edges.{CutsArea};

use crate::common::{bounds, common, within};
use crate::crossing::cross_often;
use crate::cut::{Cut, cut_of, halves};
use or_geom::{Memory, Rect};
use std::alloc::Global;

/// So many boxes are compared pair by pair.
const FEW: usize = 8;

/// Whether one of the others shares area with the rectangle.
fn meets_one(rect: Rect, others: &[Rect]) -> bool {
    others.iter().any(|other| common(rect, *other).is_some())
}

/// Whether the boxes are few, of which no two share area.
fn are_apart(boxes: &[Rect]) -> bool {
    if FEW < boxes.len() {
        return false;
    }
    let mut rest = boxes;
    while let Some((first, others)) = rest.split_first() {
        if meets_one(*first, others) {
            return false;
        }
        rest = others;
    }
    true
}

/// Where the area is to be cut, if its boxes are neither few and apart nor a mesh, which stays as it is.
fn cut_unless_apart(alloc: Global, area: Rect, boxes: &[Rect]) -> Result<Option<Cut>, Memory>
    ensures { IfOk result (λ cut. IfSome cut (CutsArea area)) }
{
    if are_apart(boxes) || cross_often(alloc, boxes)? {
        return Ok(None);
    }
    cut_of(alloc, area, boxes, &[])
}

/// Adds boxes that cover what the boxes cover of the area.
fn add_merged(alloc: Global, area: Rect, boxes: &[Rect], out: &mut Vec<Rect>) -> Result<(), Memory>
    ensures { OnOk result (AddsCells out.old.items out.new.items (IsInArea area (HasCellInSome boxes.now))) }
{
    let parts = within(alloc, area, boxes)?;
    let Some(cut) = cut_unless_apart(alloc, area, &parts)? else {
        return Ok(out.extend_from_slice(&parts)?);
    };
    let (low, high) = halves(area, cut);
    add_merged(alloc, low, &parts, out)?;
    add_merged(alloc, high, &parts, out)
}

/// Boxes that cover exactly what these cover, so that hardly any share area.
pub fn merged(alloc: Global, boxes: &[Rect]) -> Result<Vec<Rect>, Memory>
    ensures { IfOk result (λ out. (x y : ℤ) → HasCellInSome out.items x y ↔ HasCellInSome boxes.now x y) }
{
    let mut out = Vec::new(alloc);
    if let Some(area) = bounds(boxes) {
        add_merged(alloc, area, boxes, &mut out)?;
    }
    Ok(out)
}
