use or_geom::{Memory, Rect};
use std::alloc::Global;

/// Fewer boxes are merged, however they lie.
const MANY: usize = 64;

/// About so many boxes stand for all.
const SOME: usize = 32;

/// Boxes cross often if more than one in this many ordered pairs of the sample crosses. In a mesh one in four does.
const OF_PAIRS: usize = 6;

/// Whether the first box is longer than the second on both sides, and the second taller than the first on both.
fn cross(across: Rect, upward: Rect) -> bool {
    across.x1 < upward.x1 && upward.x2 < across.x2 && upward.y1 < across.y1 && across.y2 < upward.y2
}

/// Boxes that stand for all, from the whole of the list.
fn sample(alloc: Global, boxes: &[Rect]) -> Result<Vec<Rect>, Memory> {
    let apart = boxes.len() / SOME;
    let mut chosen = Vec::new(alloc);
    let mut wait = 0;
    for rect in boxes {
        if wait != 0 {
            wait -= 1;
            continue;
        }
        chosen.push(*rect)?;
        wait = apart;
    }
    Ok(chosen)
}

/// How many of the boxes cross the box.
fn crossings(across: Rect, boxes: &[Rect]) -> usize {
    let mut count: usize = 0;
    for upward in boxes {
        count = count.saturating_add(usize::from(cross(across, *upward)));
    }
    count
}

/// Whether many of the boxes cross each other, as the bars of a mesh do. Then they have far more pieces than they are.
pub fn cross_often(alloc: Global, boxes: &[Rect]) -> Result<bool, Memory> {
    if boxes.len() < MANY {
        return Ok(false);
    }
    let chosen = sample(alloc, boxes)?;
    let mut count: usize = 0;
    for across in &chosen {
        count = count.saturating_add(crossings(*across, &chosen));
    }
    let pairs = chosen.len().saturating_mul(chosen.len());
    Ok(pairs < count.saturating_mul(OF_PAIRS))
}
