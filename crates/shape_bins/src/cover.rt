ghost use Rattle.std.specs.Prelude.{◌↔◌, IsTrue, MatchOption};
ghost use Rattle.or_geom.specs.Covered.{HasCellInSome, IsCovered};
ghost use Rattle.or_geom.specs.Row.{IsFound, IsRowOf, AreRowsTo};
ghost use Rattle.shape_bins.specs.Layers.{rects_on};

use crate::bins::Bins;
use or_geom::{Point, Rect};

/// A rectangle that the layer covers and that holds the cell: a filled box where one is known, which reaches far.
fn covered_at(bins: &Bins, layer: u16, cell: Point) -> Option<Rect>
    ensures { MatchOption result (HasCellInSome (rects_on layer bins.now) cell.x cell.y
        → ⊥) (IsFound (rects_on layer bins.now) cell) }
{
    if let Some(filled) = bins.filled_at(layer, cell) {
        return Some(filled.rect);
    }
    bins.rect_at(layer, cell)
}

/// Whether the area's row of cells at `row` is covered, and then up to which row all above it are too.
fn covered_rows(bins: &Bins, layer: u16, area: Rect, row: Point) -> Option<Point>
    requires { IsRowOf area row }
    ensures { MatchOption result (IsCovered area (rects_on layer bins.now)
        → ⊥) (AreRowsTo (rects_on layer bins.now) area row) }
{
    // The upper right corner of what is known to be covered, whose lower left corner is `row`.
    let mut corner = Point {
        x: row.x,
        y: area.y2,
    };
    'along: loop {
        let cell = Point {
            x: corner.x,
            y: row.y,
        };
        let Some(rect) = covered_at(bins, layer, cell) else {
            return None;
        };
        let y = corner.y.min(rect.y2);
        if area.x2 <= rect.x2 {
            return Some(Point { x: area.x1, y });
        }
        corner = Point { x: rect.x2, y };
    }
}

/// Whether each unit cell of the area lies in some shape of the layer.
pub fn box_covered(bins: &Bins, layer: u16, area: Rect) -> bool
    ensures { IsTrue result ↔ IsCovered area (rects_on layer bins.now) }
{
    let mut row = Point {
        x: area.x1,
        y: area.y1,
    };
    'upward: loop {
        let Some(next) = covered_rows(bins, layer, area, row) else {
            return false;
        };
        if area.y2 <= next.y {
            return true;
        }
        row = next;
    }
}
