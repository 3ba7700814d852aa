ghost use Rattle.std.specs.Prelude.{◌<◌, length, All, IfOk};
ghost use Rattle.reference_graph.specs.BottomUp.{IsBottomUp};
ghost use Rattle.reference_graph.specs.Height.{IsAboveAll, AreHeights};

use crate::nodes::references_of;
use or_geom::{Items, Memory};
use std::alloc::Global;

/// The height of a node with these references, whose heights are known.
fn height_of(references: &[usize], heights: &[u32]) -> u32
    requires { All (λ node. node < length heights.now) references.now }
    ensures { IsAboveAll references.now heights.now result }
{
    let mut height = 0;
    for node in references {
        height = height.max(heights[*node].saturating_add(1));
    }
    height
}

/// For each node of the order the length of the longest path from it, in references: 0 for a node that refers to none,
/// and `u32::MAX` where it is more than that. `graph` has for each node the nodes that it refers to, and each node of
/// the order comes after all that it refers to, as `order` gives it. The result has a number for each node of the
/// graph.
pub fn heights(alloc: Global, graph: &[Items<usize>], order: &[usize]) -> Result<Vec<u32>, Memory>
    requires { IsBottomUp graph.now order.now }
    ensures { IfOk result (λ heights. AreHeights graph.now order.now heights.items) }
{
    let mut heights = vec![in alloc; 0; graph.len()]?;
    for node in order {
        heights[*node] = height_of(references_of(graph, *node), &heights);
    }
    Ok(heights)
}
