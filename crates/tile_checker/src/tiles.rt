ghost use Rattle.std.specs.Prelude.{◌<ℤ◌, ◌≤ℤ◌, IfOk, OnOk};
ghost use Rattle.or_geom.specs.Distance.{IsNear, IsReachable};
ghost use Rattle.or_geom.specs.Reachable.{AreReachable};
ghost use Rattle.tile_checker.specs.Tiles.{IsTileSide, AreTiles, AreCellRows, IsRowAdded, IsTiling};

use crate::clear::filled_around;
use crate::extent::extent;
use or_geom::{Memory, Rect, Shape};
use shape_bins::Bins;
use std::alloc::Global;

/// A tile is at least so many times as wide and tall as the shapes on an average. So few shapes lie in several tiles,
/// and a wire that is as long as others crosses few. In larger tiles the lists would be longer that space rules go
/// through for each first shape.
const MEAN_SIDES_PER_TILE: u64 = 14;

/// The same where most shapes lie in boxes that are clear: there space rules go through no lists.
const MEAN_SIDES_PER_CLEAR_TILE: u64 = 64;

/// At most about so many shapes are looked at to tell which it is.
const SAMPLES: usize = 1024;

/// On an average a tile has at least about so many shapes, also where the shapes lie far apart.
const SHAPES_PER_TILE: u64 = 64;

/// The mean of the shapes' widths and heights, in nanometres.
fn mean_side(shapes: &[Shape]) -> u64 {
    let mut sum: u64 = 0;
    for shape in shapes {
        let width = shape.rect.x2.abs_diff(shape.rect.x1);
        let height = shape.rect.y2.abs_diff(shape.rect.y1);
        sum = sum.saturating_add(width).saturating_add(height);
    }
    let count = shapes.len() as u64;
    if count == 0 {
        return 0;
    }
    sum / count / 2
}

/// Whether the shape lies in a box of its layer from which the layer's other shapes stand apart.
fn is_clear(bins: &Bins, shape: Shape) -> bool {
    match filled_around(bins, shape) {
        Some(filled) => 0 < filled.clearance,
        None => false,
    }
}

/// Whether more than half of the shapes lie in clear boxes, as far as some of them tell.
fn is_mostly_clear(bins: &Bins) -> bool {
    let shapes = bins.shapes();
    let step = shapes.len() / SAMPLES + 1;
    let mut clear: usize = 0;
    let mut others: usize = 0;
    for shape in shapes.iter().step_by(step) {
        if is_clear(bins, *shape) {
            clear = clear.saturating_add(1);
        } else {
            others = others.saturating_add(1);
        }
    }
    others < clear
}

/// How many times as wide and tall as the shapes on an average a tile is at least.
fn mean_sides_per_tile(bins: &Bins) -> u64 {
    if is_mostly_clear(bins) {
        return MEAN_SIDES_PER_CLEAR_TILE;
    }
    MEAN_SIDES_PER_TILE
}

/// The side of the tiles over an area that holds the shapes, in nanometres.
fn tile_side(shapes: &[Shape], area: Rect, mean_sides: u64) -> i64
    ensures { IsTileSide result }
{
    let extent = area.x2.abs_diff(area.x1).max(area.y2.abs_diff(area.y1));
    let most_along = (shapes.len() as u64 / SHAPES_PER_TILE).isqrt() + 1;
    let side = mean_side(shapes)
        .saturating_mul(mean_sides)
        .max((extent / most_along).saturating_add(1));
    side.min(1 << 41) as i64
}

/// Where the next tile begins after one that begins here, or the area's end.
fn next_line(at: i64, side: i64, end: i64) -> i64
    requires side { IsTileSide side }
    requires before { at <ℤ end }
    requires near { IsNear end }
    ensures later { at <ℤ result }
    ensures within { result ≤ℤ end }
{
    let next = at + side;
    if next < end {
        return next;
    }
    end
}

/// Adds tiles with sides of this length, from the area's left side to its right, for the rows of cells from `low` to
/// `high`.
fn add_row(area: Rect, low: i64, high: i64, side: i64, tiles: &mut Vec<Rect>) -> Result<(), Memory>
    requires reach { IsReachable area }
    requires side { IsTileSide side }
    requires rows { AreCellRows area low high }
    ensures { OnOk result (IsRowAdded area low high tiles.old.items tiles.new.items) }
{
    let mut left = area.x1;
    while left < area.x2 {
        let right = next_line(left, side, area.x2);
        tiles.push(Rect {
            x1: left,
            y1: low,
            x2: right,
            y2: high,
        })?;
        left = right;
    }
    Ok(())
}

/// Tiles with sides of this length, row by row; the last ones end where the area does.
fn tiles_over(alloc: Global, area: Rect, side: i64) -> Result<Vec<Rect>, Memory>
    requires reach { IsReachable area }
    requires side { IsTileSide side }
    ensures { IfOk result (λ tiles. IsTiling area tiles.items) }
{
    let mut tiles = Vec::new(alloc);
    let mut low = area.y1;
    while low < area.y2 {
        let high = next_line(low, side, area.y2);
        add_row(area, low, high, side, &mut tiles)?;
        low = high;
    }
    Ok(tiles)
}

/// Tiles over all lower left corners of the shapes.
pub fn tiles_of(alloc: Global, bins: &Bins) -> Result<Vec<Rect>, Memory>
    requires { AreReachable bins.now }
    ensures { IfOk result (λ tiles. AreTiles bins.now tiles.items) }
{
    let shapes = bins.shapes();
    let area = extent(shapes);
    let side = tile_side(shapes, area, mean_sides_per_tile(bins));
    tiles_over(alloc, area, side)
}
