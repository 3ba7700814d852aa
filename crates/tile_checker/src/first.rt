ghost use Rattle.std.specs.Prelude.{◌≡◌, ◌<◌, Some, length, slice_get};

use or_geom::Shape;

/// A shape that is looked at, with its place among the shapes.
#[derive(Clone, Copy)]
pub struct First {
    pub place: usize,
    pub shape: Shape,
}

/// The shape at a place.
pub fn shape_at(shapes: &[Shape], place: usize) -> Shape
    requires { place < length shapes.now }
    ensures { slice_get shapes.now place ≡ Some result }
{
    shapes[place]
}
