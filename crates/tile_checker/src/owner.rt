ghost use Rattle.std.specs.Prelude.{◌↔◌, IsTrue, Some};
ghost use Rattle.or_geom.specs.Covered.{HasCell};
ghost use Rattle.or_geom.specs.Distance.{IsReachable};
ghost use Rattle.tile_checker.specs.Tiles.{corner};

use crate::minimum::Minimum;
use or_geom::{Rect, Shape};

/// Whether the tile has the unit cell with this lower left corner.
fn has_cell(tile: Rect, x: i64, y: i64) -> bool
    ensures { IsTrue result ↔ HasCell tile x y }
{
    if x < tile.x1 {
        return false;
    }
    if tile.x2 <= x {
        return false;
    }
    if y < tile.y1 {
        return false;
    }
    if y < tile.y2 {
        return true;
    }
    false
}

/// Whether the tile has the rectangle's lower left corner.
pub fn has_corner(tile: Rect, rect: Rect) -> bool
    ensures { IsTrue result ↔ HasCell tile rect.x1 rect.y1 }
{
    has_cell(tile, rect.x1, rect.y1)
}

/// Whether the tile owns what two shapes break: it has the lower left corner of what the first, grown by the minimum,
/// has in common with the second.
pub fn owns_pair(tile: Rect, min: Minimum, first: Shape, second: Shape) -> bool
    requires { IsReachable first.rect }
    ensures { IsTrue result ↔ HasCell tile (corner min.value first (Some second)).x
        (corner min.value first (Some second)).y }
{
    let left = first.rect.x1 - min.value;
    let low = first.rect.y1 - min.value;
    let x = left.max(second.rect.x1);
    let y = low.max(second.rect.y1);
    has_cell(tile, x, y)
}
