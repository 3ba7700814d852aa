ghost use Rattle.std.specs.Prelude.{◌^◌, ◌<◌, length, IfOk};
ghost use Rattle.std.specs.List.Sorted.{IsStrictlySortedBy};
ghost use Rattle.or_geom.specs.ShapeOrder.{shape_order};
ghost use Rattle.net_extractor.specs.ShapeNets.{AreShapeNets};

use crate::numbering::{no_numbers, number_at};
use or_geom::{Items, Memory};
use shape_bins::Bins;
use std::alloc::Global;
use tech_rules::Connect;

/// The number of the net of each shape, in the order of the shapes: two have one number exactly where they are on one
/// net under these connections, and the numbers run from 0 by first appearance. The shapes are in order and distinct,
/// and there are fewer than 2^32.
pub fn shape_nets(alloc: Global, connections: &[Connect], bins: &Bins) -> Result<Items<u32>, Memory>
    requires rises { IsStrictlySortedBy shape_order bins.now }
    requires few { length bins.now < 2 ^ 32 }
    ensures { IfOk result (AreShapeNets connections.now bins.now) }
{
    let mut numbering = no_numbers(alloc, connections, bins)?;
    let mut nets = Items::new(alloc);
    for index in 0..bins.shapes().len() {
        let net = number_at(index, &mut numbering);
        nets.push(net)?;
    }
    Ok(nets)
}
