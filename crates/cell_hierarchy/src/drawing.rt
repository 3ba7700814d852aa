use crate::flat::Label;
use or_geom::{Point, Shape};

/// What a cell draws itself, perhaps some of it twice: its elements' shapes, one element after another; where labels
/// are kept, its elements' labels in some order; and the points of all its elements' labels in the order of the
/// elements, which are listed also where the labels themselves are not kept.
#[derive(Drop)]
pub struct OwnDrawing<'b> {
    pub shapes: Vec<Shape>,
    pub labels: Vec<Label<'b>>,
    pub points: Vec<Point>,
}
