ghost use Rattle.std.specs.Prelude.{IfOk};
ghost use Rattle.gds_library.specs.Writable.{IsWritableElement};
ghost use Rattle.element_drawing.specs.Drawing.{IsDrawing};

use crate::boxes::path_boxes;
use gds_library::Element;
use or_geom::{Memory, Rect};
use rectilinear::slabs;
use std::alloc::Global;

/// The rectangles that an element draws.
pub fn drawing_of(alloc: Global, element: &Element) -> Result<Vec<Rect>, Memory>
    requires { IsWritableElement element.now }
    ensures { IfOk result (λ rects. IsDrawing element.now rects.items) }
{
    match element {
        Element::Boundary { points, .. } => slabs(alloc, points.as_slice()),
        Element::Path {
            kind,
            width,
            points,
            ..
        } => path_boxes(alloc, *kind, *width, points.as_slice()),
        _ => Ok(Vec::new(alloc)),
    }
}
