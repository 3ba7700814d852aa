ghost use Rattle.std.specs.Prelude.{◌↔◌, IsTrue, MatchOption};
ghost use Rattle.or_geom.specs.Covered.{HasCell, HasCellInSome, IsCovered};
ghost use Rattle.or_geom.specs.Row.{IsFound, IsRowOf, AreRowsTo};

use crate::shape::{Point, Rect};

/// Whether the unit cell with this lower left corner lies in the rectangle.
fn holds(rect: Rect, cell: Point) -> bool
    ensures { IsTrue result ↔ HasCell rect cell.x cell.y }
{
    if cell.x < rect.x1 {
        return false;
    }
    if rect.x2 <= cell.x {
        return false;
    }
    if cell.y < rect.y1 {
        return false;
    }
    if cell.y < rect.y2 {
        return true;
    }
    false
}

/// One of the rectangles that hold the cell.
fn rect_at(cell: Point, rects: &[Rect]) -> Option<Rect>
    ensures { MatchOption result (HasCellInSome rects.now cell.x cell.y → ⊥) (IsFound rects.now cell) }
{
    for rect in rects {
        if holds(*rect, cell) {
            return Some(*rect);
        }
    }
    None
}

/// Whether the area's row of cells at `row` is covered, and then up to which row all above it are too.
fn covered_rows(area: Rect, row: Point, rects: &[Rect]) -> Option<Point>
    requires { IsRowOf area row }
    ensures { MatchOption result (IsCovered area rects.now → ⊥) (AreRowsTo rects.now area row) }
{
    // The upper right corner of what is known to be covered, whose lower left corner is `row`.
    let mut corner = Point {
        x: row.x,
        y: area.y2,
    };
    'along: loop {
        let cell = Point {
            x: corner.x,
            y: row.y,
        };
        let Some(rect) = rect_at(cell, rects) else {
            return None;
        };
        let y = corner.y.min(rect.y2);
        if area.x2 <= rect.x2 {
            return Some(Point { x: area.x1, y });
        }
        corner = Point { x: rect.x2, y };
    }
}

/// Whether each unit cell of the area lies in one of the rectangles. It takes no memory, and its time grows with the
/// number of rectangles and not with the area: it goes along a row from one rectangle to the next, and then to the
/// lowest row above it that may be covered otherwise.
pub fn covered(area: Rect, rects: &[Rect]) -> bool
    ensures { IsTrue result ↔ IsCovered area rects.now }
{
    let mut row = Point {
        x: area.x1,
        y: area.y1,
    };
    'upward: loop {
        let Some(next) = covered_rows(area, row, rects) else {
            return false;
        };
        if area.y2 <= next.y {
            return true;
        }
        row = next;
    }
}
