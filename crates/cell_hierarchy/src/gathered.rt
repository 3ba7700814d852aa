ghost use Rattle.std.specs.Prelude.{◌≡◌, [], IfOk};
ghost use Rattle.cell_hierarchy.specs.Settled.{HasRoomFor};

use crate::counts::SaturatedCounts;
use crate::flat::Label;
use bumpalo::Bump;
use or_geom::{Memory, Point, Shape};
use std::alloc::Global;

/// What a top and all cells below it draw, in no order and perhaps some of it twice: shapes, labels, and the points of
/// all labels, which are listed also where the labels themselves are not kept. The shapes and labels lie in the arena
/// from the first, and are sorted there.
#[derive(Drop)]
pub struct Gathered<'b> {
    pub shapes: Vec<Shape, &'b Bump>,
    pub labels: Vec<Label<'b>, &'b Bump>,
    pub points: Vec<Point>,
}

/// Nothing yet, with room for as much as was counted: a list that grows in an arena leaves its old items there.
pub fn nothing_gathered<'b>(
    alloc: Global,
    bump: &'b Bump,
    counts: SaturatedCounts,
    keeps_labels: bool,
) -> Result<Gathered<'b>, Memory>
    ensures shapes { IfOk result (λ gathered. gathered.shapes.items ≡ []) }
    ensures labels { IfOk result (λ gathered. gathered.labels.items ≡ []) }
    ensures points { IfOk result (λ gathered. gathered.points.items ≡ []) }
    ensures room { IfOk result (HasRoomFor counts keeps_labels) }
{
    let shapes = counts.shapes as usize;
    let points = counts.labels as usize;
    let labels = if keeps_labels { points } else { 0 };
    Ok(Gathered {
        shapes: Vec::with_capacity(bump, shapes)?,
        labels: Vec::with_capacity(bump, labels)?,
        points: Vec::with_capacity(alloc, points)?,
    })
}
