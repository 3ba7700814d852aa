ghost use Rattle.std.specs.Prelude.{IfOk, MatchOption};
ghost use Rattle.box_pieces.specs.Cells.{HasSameCells, IsNoRectangle};

use crate::common::bounds;
use crate::pieces::split;
use or_geom::{Memory, Rect};
use std::alloc::Global;

/// The rectangle that has exactly the unit cells of the boxes, if there is one.
pub fn box_of(alloc: Global, boxes: &[Rect]) -> Result<Option<Rect>, Memory>
    ensures { IfOk result (λ found. MatchOption found (IsNoRectangle boxes.now) (HasSameCells boxes.now)) }
{
    if let [only] = boxes {
        return Ok(Some(*only));
    }
    let Some(area) = bounds(boxes) else {
        return Ok(None);
    };
    let pieces = split(alloc, &[area], boxes)?;
    if pieces.outside.as_slice().is_empty() {
        return Ok(Some(area));
    }
    Ok(None)
}
