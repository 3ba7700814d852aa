ghost use Rattle.or_geom.specs.Distance.{IsReachable};
ghost use Rattle.or_geom.specs.Reachable.{AreReachable};
ghost use Rattle.tile_checker.specs.Tiles.{HasCorners};

use crate::first::shape_at;
use or_geom::{Rect, Shape, around};

/// The first shape's rectangle, or a cell at the origin where there is no shape.
fn first_rect(shapes: &[Shape]) -> Rect
    requires { AreReachable shapes.now }
    ensures { IsReachable result }
{
    if shapes.len() == 0 {
        return Rect {
            x1: 0,
            y1: 0,
            x2: 1,
            y2: 1,
        };
    }
    shape_at(shapes, 0).rect
}

/// A rectangle that contains all shapes, so it has the unit cells at their lower left corners.
pub fn extent(shapes: &[Shape]) -> Rect
    requires { AreReachable shapes.now }
    ensures reach { IsReachable result }
    ensures corners { HasCorners result shapes.now }
{
    let mut area = first_rect(shapes);
    for shape in shapes {
        area = around(area, shape.rect);
    }
    area
}
