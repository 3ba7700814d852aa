ghost use Rattle.std.specs.Prelude.{◌≡◌, ◌<◌, ◌^◌, length, slice_index, IfOk, IfErr};
ghost use Rattle.std.specs.List.{AllByRecursion};
ghost use Rattle.gds_library.specs.Writable.{IsWritableCell};
ghost use Rattle.cell_chains.specs.Chains.{IsSound};
ghost use Rattle.cell_chains.specs.Hierarchy.{AreCells, IsChainFault};

use crate::cell::Cell;
use crate::fault::ChainFault;
use crate::listing::listed;
use crate::nodes::nodes_of;
use crate::unknown::first_unknown;
use gds_library::Structure;
use or_geom::Name;
use reference_graph::{heights, least_cyclic, order};
use std::alloc::Global;

/// The greatest number of references that a chain may have.
const DEEPEST: u32 = 32;

/// The height of a node.
fn height_at(heights: &[u32], node: usize) -> u32
    requires { node < length heights.now }
    ensures is { result ≡ slice_index heights.now node }
    ensures fits { result < 2 ^ 32 }
{
    heights[node]
}

/// Cells from the bottom up, the top's last, in which each reference leads to an earlier cell, so that all that the top
/// reaches is among them. Of two structures of one name the first counts.
///
/// Refused is, in this order: a reached name that no structure has (`UnknownStruct`), a reached structure that reaches
/// itself (`Cycle`), a chain of more than 32 references (`TooDeep`).
///
/// Its time is in proportion to the number of references, but for the logarithm of the number of names.
pub fn cells_below(
    alloc: Global,
    structs: &[Structure],
    top: &Name,
) -> Result<Vec<Cell>, ChainFault>
    requires { AllByRecursion IsWritableCell structs.now }
    ensures are { IfOk result (λ cells. AreCells structs.now top.now cells.items) }
    ensures sound { IfOk result (λ cells. IsSound structs.now top.now) }
    ensures fault { IfErr result (IsChainFault structs.now top.now) }
{
    let nodes = nodes_of(alloc, structs, top)?;
    if let Some(node) = first_unknown(alloc, &nodes.graph, &nodes.firsts, nodes.top)? {
        let name = Name::from_bytes(alloc, nodes.names[node])?;
        return Err(ChainFault::UnknownStruct { name });
    }
    let Some(order) = order(alloc, &nodes.graph, nodes.top)? else {
        let Some(node) = least_cyclic(alloc, &nodes.graph, nodes.top)? else {
            unreachable!()
        };
        let name = Name::from_bytes(alloc, nodes.names[node])?;
        return Err(ChainFault::Cycle { name });
    };
    let heights = heights(alloc, &nodes.graph, &order)?;
    let depth = height_at(&heights, nodes.top);
    if depth > DEEPEST {
        return Err(ChainFault::TooDeep { depth });
    }
    Ok(listed(alloc, structs, &nodes, &order, &heights)?)
}
