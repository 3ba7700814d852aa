ghost use Rattle.std.specs.Prelude.{◌<ℤ◌, Some};

use std::fmt;

/// A point of the plane, in nanometres.
#[derive(Clone, Copy, Debug, PartialEq, Eq, PartialOrd, Ord)]
pub struct Point {
    pub x: i64,
    pub y: i64,
}

/// A rectangle with positive sides, from its lower left corner (`x1`, `y1`) to its upper right corner (`x2`, `y2`), in
/// nanometres. Rectangles are ordered by `x1`, `y1`, `x2` and `y2`.
#[derive(Clone, Copy, Debug, PartialEq, Eq, PartialOrd, Ord)]
pub struct Rect {
    pub x1: i64,
    pub y1: i64,
    pub x2: i64,
    pub y2: i64,
    pub ghost wide: { x1 <ℤ x2 },
    pub ghost tall: { y1 <ℤ y2 },
}

/// A rectangle on a layer. `layer` is the layer's place, from 0, in the technology's list of layers. Shapes are ordered
/// by layer and then as their rectangles.
#[derive(Clone, Copy, Debug, PartialEq, Eq, PartialOrd, Ord)]
pub struct Shape {
    pub layer: u16,
    pub rect: Rect,
}

/// The four numbers, separated by single spaces.
impl fmt::Display for Rect {
    ghost use Rattle.or_geom.specs.Texts.{rect_text};

    ghost output = { λ r. Some (rect_text r) };

    fn fmt<W: fmt::Write>(&self, f: &mut fmt::Formatter<W>) -> fmt::Result {
        let x1 = self.x1;
        let y1 = self.y1;
        let x2 = self.x2;
        let y2 = self.y2;
        write!(f, "{x1} {y1} {x2} {y2}")
    }
}
