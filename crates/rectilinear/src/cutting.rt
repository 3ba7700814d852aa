ghost use Rattle.std.specs.Prelude.{◌≡◌, ◌++◌, ◌<ℤ◌, List, false, IfOk, OnOk};
ghost use Rattle.rectilinear.specs.Slabs.{IsSlabList};
ghost use Rattle.rectilinear.specs.Rows.{ArePairs, Rise, is_odd};

use crate::changes::{changes_of, pass};
use crate::ends::End;
use crate::heights::{Height, height_of};
use crate::sides;
use or_geom::{Memory, Point, Rect};
use std::alloc::Global;

/// The rows between two heights.
#[derive(Clone, Copy)]
struct Band {
    low: i64,
    high: i64,
    ghost tall: { low <ℤ high },
}

fn band_of(low: Height, high: Height) -> Band
    requires { low.y <ℤ high.y }
    ensures { (result.low ≡ low.y) × (result.high ≡ high.y) }
{
    Band {
        low: low.y,
        high: high.y,
    }
}

fn box_of(first: End, second: End, band: Band) -> Rect
    requires { first.x <ℤ second.x }
    ensures { (result.x1 ≡ first.x) × (result.x2 ≡ second.x) × (result.y1 ≡ band.low) × (result.y2 ≡ band.high) }
{
    Rect {
        x1: first.x,
        y1: band.low,
        x2: second.x,
        y2: band.high,
    }
}

/// Adds the boxes between two heights from each odd end to the next.
fn add_pairs(ends: &[End], band: Band, out: &mut Vec<Rect>) -> Result<(), Memory>
    requires rise { Rise ends.now }
    requires even { is_odd ends.now ≡ false }
    ensures { OnOk result ((added : List Rect) × (out.new.items ≡ out.old.items ++ added)
        × ArePairs ends.now band.low band.high added) }
{
    let mut rest = ends;
    while let Some((first, others)) = rest.split_first() {
        let Some((second, after)) = others.split_first() else {
            return Ok(());
        };
        out.push(box_of(*first, *second, band))?;
        rest = after;
    }
    Ok(())
}

/// The slabs of the ring with these corners, each once: for each two neighbouring heights of the corners, the stretches
/// inside it that are as long as can be. The ring needn't be simple.
///
/// The ring is swept from its lowest height up. The ends of a row are those of the row below but for the sides that
/// begin or end between them, so a side is looked at twice and not once for each height.
pub fn slabs(alloc: Global, corners: &[Point]) -> Result<Vec<Rect>, Memory>
    ensures { IfOk result (λ rects. IsSlabList corners.now rects.items) }
{
    let all_sides = sides(alloc, corners)?;
    let changes = changes_of(alloc, &all_sides)?;
    let mut ends = Vec::new(alloc);
    let mut out = Vec::new(alloc);
    let mut rest = changes.as_slice();
    while let Some((change, _)) = rest.split_first() {
        let low = height_of(*change);
        rest = pass(rest, low, &mut ends)?;
        let Some((next, _)) = rest.split_first() else {
            return Ok(out);
        };
        add_pairs(&ends, band_of(low, height_of(*next)), &mut out)?;
    }
    Ok(out)
}
