ghost use Rattle.std.specs.Prelude.{◌≡◌, ◌⊎◌, IfOk, MatchOption};
ghost use Rattle.box_pieces.specs.Edges.{CutsArea, AreUncut, AreHalves};

use crate::edges::{Axis, place_of, span_of};
use or_geom::{Memory, Rect};
use std::alloc::Global;

/// A line across an area, at a place of an axis.
#[derive(Clone, Copy)]
pub struct Cut {
    pub axis: Axis,
    pub at: i64,
}

/// How many of the edges within the area that run along the axis would be cut.
fn cut_edges(area: Rect, boxes: &[Rect], cut: Cut, along: Axis) -> usize {
    let room = span_of(along, area);
    let mut count: usize = 0;
    for rect in boxes {
        let across = span_of(cut.axis, *rect);
        if across.low < cut.at && cut.at < across.high {
            let taken = span_of(along, *rect);
            count = count.saturating_add(usize::from(room.low < taken.low));
            count = count.saturating_add(usize::from(taken.high < room.high));
        }
    }
    count
}

/// The better of a cut across and one upward: it cuts fewer edges of both lists of boxes.
fn better(area: Rect, boxes: &[Rect], others: &[Rect], across: Cut, upward: Cut) -> Cut
    ensures { (result ≡ across) ⊎ (result ≡ upward) }
{
    let many = cut_edges(area, boxes, across, Axis::Upward);
    let many = many.saturating_add(cut_edges(area, others, across, Axis::Upward));
    let few = cut_edges(area, boxes, upward, Axis::Across);
    let few = few.saturating_add(cut_edges(area, others, upward, Axis::Across));
    if few < many { upward } else { across }
}

/// Where the area may be cut at an edge of one of the boxes, so that about as many of these edges lie on both sides,
/// and few edges of these and the other boxes are cut.
pub fn cut_of(
    alloc: Global,
    area: Rect,
    boxes: &[Rect],
    others: &[Rect],
) -> Result<Option<Cut>, Memory>
    ensures { IfOk result (λ cut. MatchOption cut (AreUncut area boxes.now) (CutsArea area)) }
{
    let across = place_of(alloc, Axis::Across, area, boxes)?;
    let Some(at) = place_of(alloc, Axis::Upward, area, boxes)? else {
        return Ok(across.map(|at| Cut {
            axis: Axis::Across,
            at,
        }));
    };
    let upward = Cut {
        axis: Axis::Upward,
        at,
    };
    let Some(at) = across else {
        return Ok(Some(upward));
    };
    let across = Cut {
        axis: Axis::Across,
        at,
    };
    Ok(Some(better(area, boxes, others, across, upward)))
}

/// The two parts of the area on both sides of the cut.
pub fn halves(area: Rect, cut: Cut) -> (Rect, Rect)
    requires { CutsArea area cut }
    ensures { AreHalves area result.0 result.1 }
{
    let Rect { x1, y1, x2, y2 } = area;
    let at = cut.at;
    match cut.axis {
        Axis::Across => (Rect { x1, y1, x2: at, y2 }, Rect { x1: at, y1, x2, y2 }),
        Axis::Upward => (Rect { x1, y1, x2, y2: at }, Rect { x1, y1: at, x2, y2 }),
    }
}
