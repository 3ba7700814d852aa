ghost use Rattle.std.specs.Prelude.{◌≤ℤ◌, pos};

use or_geom::Point;

/// How many columns and rows an array has: one or more of each.
#[derive(Clone, Copy)]
pub struct ArrayCounts {
    pub columns: i16,
    pub rows: i16,
    pub ghost some_columns: { pos 1 ≤ℤ columns },
    pub ghost some_rows: { pos 1 ≤ℤ rows },
}

/// So many steps of one pitch.
#[derive(Clone, Copy)]
pub struct StepCount {
    pub count: i64,
}

/// A length that so many equal steps are to fill.
#[derive(Clone, Copy)]
pub struct DividedLength {
    pub length: i64,
    pub count: i64,
}

/// One of several equal steps.
#[derive(Clone, Copy)]
pub struct Step {
    pub length: i64,
}

/// The origin of an array, and how far its columns and its rows are apart.
#[derive(Clone, Copy)]
pub struct ArrayGrid {
    pub at: Point,
    pub across: Point,
    pub down: Point,
}

/// The three points of XY: the origin, and the origin displaced by all columns and by all rows.
#[derive(Clone, Copy)]
pub struct Displaced {
    pub at: Point,
    pub by_columns: Point,
    pub by_rows: Point,
}
