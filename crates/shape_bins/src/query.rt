ghost use Rattle.std.specs.Prelude.{◌↔◌, IsTrue};
ghost use Rattle.or_geom.specs.Covered.{HasCell};
ghost use Rattle.or_geom.specs.Joined.{IsIn};
ghost use Rattle.shape_bins.specs.Meets.{Meet, Overlap};
ghost use Rattle.shape_bins.specs.Query.{FitsQuery};

use or_geom::{Point, Rect, holds, joined};

/// Which shapes of a layer are looked for.
#[derive(Clone, Copy)]
pub enum Query {
    /// Those whose closed boxes meet the area.
    Meets(Rect),
    /// Those whose closed boxes meet the area, and that the rectangle `held` doesn't contain.
    MeetsOutside { area: Rect, held: Rect },
    /// Those that are joined with the area: the closed boxes meet in more than one point.
    Joins(Rect),
    /// Those that share area with it.
    Overlaps(Rect),
    /// Those whose closed boxes contain the point.
    At(Point),
    /// Those that hold the unit cell with this lower left corner.
    Holds(Point),
}

/// Whether the closed rectangles have a point in common.
#[inline(always)]
pub fn meet(a: Rect, b: Rect) -> bool
    ensures { IsTrue result ↔ Meet a b }
{
    if a.x2 < b.x1 {
        return false;
    }
    if b.x2 < a.x1 {
        return false;
    }
    if a.y2 < b.y1 {
        return false;
    }
    if b.y2 < a.y1 {
        return false;
    }
    true
}

/// Whether the rectangles share area.
#[inline(always)]
pub fn overlap(a: Rect, b: Rect) -> bool
    ensures { IsTrue result ↔ Overlap a b }
{
    if a.x2 <= b.x1 {
        return false;
    }
    if b.x2 <= a.x1 {
        return false;
    }
    if a.y2 <= b.y1 {
        return false;
    }
    if b.y2 <= a.y1 {
        return false;
    }
    true
}

/// Whether the closed rectangle contains the point.
#[inline(always)]
fn has_point(rect: Rect, point: Point) -> bool
    ensures { IsTrue result ↔ IsIn rect point }
{
    if point.x < rect.x1 {
        return false;
    }
    if rect.x2 < point.x {
        return false;
    }
    if point.y < rect.y1 {
        return false;
    }
    if rect.y2 < point.y {
        return false;
    }
    true
}

/// Whether the unit cell with this lower left corner lies in the rectangle.
#[inline(always)]
fn holds_cell(rect: Rect, cell: Point) -> bool
    ensures { IsTrue result ↔ HasCell rect cell.x cell.y }
{
    if cell.x < rect.x1 {
        return false;
    }
    if rect.x2 <= cell.x {
        return false;
    }
    if cell.y < rect.y1 {
        return false;
    }
    if rect.y2 <= cell.y {
        return false;
    }
    true
}

/// Whether a shape with this rectangle is looked for.
#[inline(always)]
pub fn fits(query: Query, rect: Rect) -> bool
    ensures { IsTrue result ↔ FitsQuery query rect }
{
    match query {
        Query::Meets(area) => meet(rect, area),
        Query::MeetsOutside { area, held } => meet(rect, area) && !holds(held, rect),
        Query::Joins(area) => joined(rect, area),
        Query::Overlaps(area) => overlap(rect, area),
        Query::At(point) => has_point(rect, point),
        Query::Holds(cell) => holds_cell(rect, cell),
    }
}
