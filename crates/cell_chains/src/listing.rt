ghost use Rattle.std.specs.Prelude.{◌≡◌, ◌<◌, length, All, IfOk};
ghost use Rattle.reference_graph.specs.BottomUp.{IsBottomUp};
ghost use Rattle.cell_chains.specs.Numbering.{texts, AreNumberedNodes};
ghost use Rattle.cell_chains.specs.Listing.{IsKnown, IsListed, AreListed};

use crate::cell::Cell;
use crate::nodes::{Nodes, elements_at};
use crate::target::{positions, targets};
use gds_library::Structure;
use or_geom::Memory;
use std::alloc::Global;

/// The cell of a node that has a structure.
fn cell_of(
    alloc: Global,
    structs: &[Structure],
    nodes: &Nodes,
    positions: &[usize],
    height: u32,
    node: usize,
) -> Result<Cell, Memory>
    requires nodes { AreNumberedNodes structs.now nodes.now }
    requires sized { length positions.now ≡ length nodes.now.names.items }
    requires inside { node < length nodes.now.names.items }
    requires known { IsKnown nodes.now.firsts.items node }
    ensures { IfOk result (IsListed structs.now (texts nodes.now.names.items) nodes.now.firsts.items positions.now
        height node) }
{
    let first = nodes.firsts[node];
    let Some(structure) = first else {
        unreachable!()
    };
    let elements = elements_at(structs, first);
    Ok(Cell {
        structure,
        height,
        targets: targets(alloc, &nodes.names, positions, elements)?,
    })
}

/// The cells of the nodes, in their order.
pub fn listed(
    alloc: Global,
    structs: &[Structure],
    nodes: &Nodes,
    order: &[usize],
    heights: &[u32],
) -> Result<Vec<Cell>, Memory>
    requires nodes { AreNumberedNodes structs.now nodes.now }
    requires order { IsBottomUp nodes.now.graph.items order.now }
    requires sized { length heights.now ≡ length nodes.now.graph.items }
    requires known { All (IsKnown nodes.now.firsts.items) order.now }
    ensures { IfOk result (λ cells. AreListed structs.now (texts nodes.now.names.items) nodes.now.firsts.items
        order.now heights.now cells.items) }
{
    let positions = positions(alloc, order, nodes.names.len())?;
    let mut cells = Vec::new(alloc);
    for node in order {
        let cell = cell_of(alloc, structs, nodes, &positions, heights[*node], *node)?;
        cells.push(cell)?;
    }
    Ok(cells)
}
