ghost use Rattle.std.specs.Prelude.{◌≡◌, ◌<◌, length, IfOk, IfSome, IfNone};
ghost use Rattle.reference_graph.specs.Reaches.{AreWithin};
ghost use Rattle.cell_chains.specs.Listing.{IsLeastUnknown, AreKnown};

use or_geom::{Items, Memory};
use reference_graph::reached;
use std::alloc::Global;

/// The least node that `start` reaches and that has no structure; None where there is none.
pub fn first_unknown(
    alloc: Global,
    graph: &[Items<usize>],
    firsts: &[Option<usize>],
    start: usize,
) -> Result<Option<usize>, Memory>
    requires within { AreWithin graph.now }
    requires inside { start < length graph.now }
    requires sized { length firsts.now ≡ length graph.now }
    ensures found { IfOk result (λ found. IfSome found (IsLeastUnknown graph.now firsts.now start)) }
    ensures none { IfOk result (λ found. IfNone found (AreKnown graph.now firsts.now start)) }
{
    let marks = reached(alloc, graph, start)?;
    for node in 0..graph.len() {
        if !marks[node] {
            continue;
        }
        if firsts[node].is_none() {
            return Ok(Some(node));
        }
    }
    Ok(None)
}
