ghost use Rattle.std.specs.Prelude.{◌≡◌, ◌<◌, length, All, IfOk, IfSome, IfNone, OnSome, MatchOption};
ghost use Rattle.reference_graph.specs.Reaches.{AreWithin, HasCycle, IsAcyclic};
ghost use Rattle.reference_graph.specs.BottomUp.{IsOrder};
ghost use Rattle.reference_graph.specs.Search.{ArePlaced, IsNext};

use crate::nodes::references_of;
use or_geom::{Items, Memory};
use std::alloc::Global;

/// How far the search has come with a node: not to it yet, to something below it, or past it.
#[derive(Clone, Copy, PartialEq, Eq)]
enum Stage {
    Unseen,
    Open,
    Placed,
}

/// An open node, and a place up to which all its references are placed.
#[derive(Clone, Copy)]
struct Visit {
    node: usize,
    place: usize,
}

/// The place of the first reference to a node that is not placed, where those before `from` are known to be.
fn next_unplaced(references: &[usize], from: usize, stages: &[Stage]) -> Option<usize>
    requires within { All (λ node. node < length stages.now) references.now }
    requires done { ArePlaced stages.now references.now from }
    ensures { MatchOption result (ArePlaced stages.now references.now (length references.now))
        (IsNext stages.now references.now) }
{
    for place in from..references.len() {
        if stages[references[place]] != Stage::Placed {
            return Some(place);
        }
    }
    None
}

/// The nodes that `start` reaches, itself last, each after all that it refers to; or None where one of them reaches
/// itself, so that there is no such order. `graph` has for each node the nodes that it refers to.
///
/// It searches in depth first and keeps its way back in a vector: the time is in proportion to the number of nodes and
/// references, and the stack does not grow with them.
pub fn order(
    alloc: Global,
    graph: &[Items<usize>],
    start: usize,
) -> Result<Option<Vec<usize>>, Memory>
    requires within { AreWithin graph.now }
    requires inside { start < length graph.now }
    ensures order { IfOk result (λ found. IfSome found (λ order. IsOrder graph.now start order.items)) }
    ensures acyclic { IfOk result (λ found. OnSome found (IsAcyclic graph.now start)) }
    ensures cyclic { IfOk result (λ found. IfNone found (HasCycle graph.now start)) }
{
    let mut stages = vec![in alloc; Stage::Unseen; graph.len()]?;
    stages[start] = Stage::Open;
    let mut trail = Vec::new(alloc);
    let mut order = Vec::new(alloc);
    let mut visit = Visit {
        node: start,
        place: 0,
    };
    'steps: loop {
        let references = references_of(graph, visit.node);
        if let Some(place) = next_unplaced(references, visit.place, &stages) {
            let node = references[place];
            if stages[node] == Stage::Open {
                return Ok(None);
            }
            trail.push(Visit {
                node: visit.node,
                place,
            })?;
            stages[node] = Stage::Open;
            visit = Visit { node, place: 0 };
            continue;
        }
        stages[visit.node] = Stage::Placed;
        order.push(visit.node)?;
        let Some(below) = trail.pop() else {
            return Ok(Some(order));
        };
        visit = below;
    }
}
