ghost use Rattle.std.specs.Prelude.{◌≡◌, ◌<◌, [], length, slice_index_or};

use or_geom::Items;

/// The nodes that a node refers to.
pub fn references_of(graph: &[Items<usize>], node: usize) -> &[usize]
    requires { node < length graph.now }
    ensures { result.now ≡ slice_index_or graph.now node [] }
{
    graph[node].as_slice()
}
