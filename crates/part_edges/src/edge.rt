ghost use Rattle.std.specs.Prelude.{◌≡◌};
ghost use Rattle.part_edges.specs.PartPins.{edge_at, edge_order, AreInOrder};

use leaf_tables::Edge;
use or_geom::{Items, Name};
use std::cmp::Ordering;

/// A net that comes to an edge at x.
pub fn edge_at(net: Name, x: i64) -> Edge
    ensures { result ≡ edge_at net x }
{
    Edge { net, x }
}

/// The order of edges: by x, and then by name.
fn compare(a: &Edge, b: &Edge) -> Ordering
    ensures { result ≡ edge_order a.now b.now }
{
    let by_x = a.x.cmp(&b.x);
    if by_x.is_ne() {
        return by_x;
    }
    a.net.as_bytes().cmp(b.net.as_bytes())
}

/// The same edges by x and then by name.
pub fn sorted_edges(edges: Vec<Edge>) -> Items<Edge>
    ensures { AreInOrder edges.items result }
{
    let mut sorted = edges;
    sorted.sort_unstable_by(|a, b| compare(a, b));
    Items::from_vec(sorted)
}
