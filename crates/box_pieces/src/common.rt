ghost use Rattle.std.specs.Prelude.{MatchOption, IfOk};
ghost use Rattle.box_pieces.specs.Cells.{IsIntersection, ShareNoCell, AreParts, HaveNone, IsBoundOf};

use or_geom::{Memory, Rect, around, holds};
use std::alloc::Global;

/// What the rectangles have in common, if they share area.
pub fn common(a: Rect, b: Rect) -> Option<Rect>
    ensures { MatchOption result (ShareNoCell a b) (IsIntersection a b) }
{
    let x1 = a.x1.max(b.x1);
    let y1 = a.y1.max(b.y1);
    let x2 = a.x2.min(b.x2);
    let y2 = a.y2.min(b.y2);
    if x2 <= x1 {
        return None;
    }
    if y2 <= y1 {
        return None;
    }
    Some(Rect { x1, y1, x2, y2 })
}

/// The boxes' parts in the area; the area alone where one of the boxes covers it.
pub fn within(alloc: Global, area: Rect, boxes: &[Rect]) -> Result<Vec<Rect>, Memory>
    ensures { IfOk result (λ parts. AreParts area boxes.now parts.items) }
{
    let mut parts = Vec::new(alloc);
    for rect in boxes {
        if holds(*rect, area) {
            return Ok(vec![in alloc; area]?);
        }
        let Some(part) = common(*rect, area) else {
            continue;
        };
        parts.push(part)?;
    }
    Ok(parts)
}

/// The least rectangle that contains all of the boxes.
pub fn bounds(boxes: &[Rect]) -> Option<Rect>
    ensures { MatchOption result (HaveNone boxes.now) (IsBoundOf boxes.now) }
{
    let (first, others) = boxes.split_first()?;
    let mut area = *first;
    for rect in others {
        area = around(area, *rect);
    }
    Some(area)
}
