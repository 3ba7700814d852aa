ghost use Rattle.std.specs.Prelude.{◌≡◌, ◌≤◌, length, IfOk};
ghost use Rattle.drawn_devices.specs.CutCell.{IsCutCell};

use crate::connections::cut_connections;
use crate::cut_shapes::cut_shapes;
use bumpalo::Bump;
use cell_hierarchy::Flat;
use net_extractor::shape_nets;
use or_geom::{Items, Memory, Shape};
use shape_bins::{Bins, index};
use std::alloc::Global;
use tech_rules::Tech;

/// How many shapes may be indexed. More of them take more than 600 GB.
const MOST: usize = 4294967295;

/// A cell: its technology, its shapes, those with the active shapes cut by gates, and the number of the net of each.
#[derive(Drop)]
pub struct CutCell<'a> {
    pub tech: &'a Tech,
    pub shapes: &'a [Shape],
    pub bins: Bins<'a>,
    pub nets: Items<u32>,
}

/// The bins of shapes, in the arena.
pub fn bins_of<'b>(alloc: Global, bump: &'b Bump, shapes: &[Shape]) -> Result<Bins<'b>, Memory>
    ensures bins { IfOk result (λ bins. bins ≡ shapes.now) }
    ensures few { IfOk result (λ bins. length bins ≤ 4294967295) }
{
    if MOST < shapes.len() {
        return Err(Memory);
    }
    let flat = Flat {
        shapes: bump.try_alloc_slice_copy(shapes)?,
        labels: &[],
    };
    index(alloc, bump, &flat)
}

/// The cell with its cut shapes, which lie in the arena.
pub fn cut_cell<'a>(
    alloc: Global,
    bump: &'a Bump,
    tech: &'a Tech,
    shapes: &'a [Shape],
) -> Result<CutCell<'a>, Memory>
    ensures tech { IfOk result (λ cell. cell.tech.now ≡ tech.now) }
    ensures shapes { IfOk result (λ cell. cell.shapes.now ≡ shapes.now) }
    ensures cut { IfOk result IsCutCell }
{
    let cut = cut_shapes(alloc, tech.devices.as_slice(), shapes)?;
    let bins = bins_of(alloc, bump, &cut)?;
    let connections = cut_connections(alloc, tech)?;
    let nets = shape_nets(alloc, &connections, &bins)?;
    Ok(CutCell {
        tech,
        shapes,
        bins,
        nets,
    })
}
