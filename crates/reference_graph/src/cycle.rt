ghost use Rattle.std.specs.Prelude.{◌≡◌, ◌<◌, ◌≤◌, min, length, All, IfOk, IfSome, IfNone, MatchOption};
ghost use Rattle.reference_graph.specs.Reaches.{AreWithin, IsAcyclic, IsLeastCyclic, CyclesMarked};
ghost use Rattle.reference_graph.specs.Waits.{AreSeen, IsNextUnseen, NoneWaits, IsLeastWaiting, AreSettled};

use crate::nodes::references_of;
use or_geom::{Items, Memory};
use std::alloc::Global;

/// How far the search has come with a node: not to it yet, to where it waits, at this place among those that wait, or
/// past it and all that it reaches.
#[derive(Clone, Copy)]
enum Standing {
    Unseen,
    Waiting(usize),
    Settled,
}

/// A node whose references are looked at, its place among those that wait, a place up to which its references are seen,
/// and the least place to which it, or a node that waits after it, is known to lead.
#[derive(Clone, Copy)]
struct Entry {
    node: usize,
    place: usize,
    next: usize,
    least: usize,
}

/// The entry of a node that now waits at this place.
fn entered(node: usize, place: usize) -> Entry
    ensures { result ≡ record { node = node; place = place; next = 0; least = place } }
{
    Entry {
        node,
        place,
        next: 0,
        least: place,
    }
}

/// The entry, where a node that waits after it is known to lead to this place.
fn lowered(entry: Entry, least: usize) -> Entry
    ensures { result ≡ record entry { least = min entry.least least } }
{
    Entry {
        least: entry.least.min(least),
        ..entry
    }
}

/// The place of the first reference to an unseen node, where those before `from` are known to be seen.
fn next_unseen(references: &[usize], from: usize, standings: &[Standing]) -> Option<usize>
    requires within { All (λ node. node < length standings.now) references.now }
    requires done { AreSeen standings.now references.now from }
    ensures { MatchOption result (AreSeen standings.now references.now (length references.now))
        (IsNextUnseen standings.now references.now) }
{
    for place in from..references.len() {
        if let Standing::Unseen = standings[references[place]] {
            return Some(place);
        }
    }
    None
}

/// The least place at which one of the references waits.
fn least_waiting(references: &[usize], standings: &[Standing]) -> Option<usize>
    requires { All (λ node. node < length standings.now) references.now }
    ensures { MatchOption result (NoneWaits standings.now references.now)
        (IsLeastWaiting standings.now references.now) }
{
    let mut least = None;
    for node in references {
        if let Standing::Waiting(place) = standings[*node] {
            least = Some(place.min(least.unwrap_or(place)));
        }
    }
    least
}

/// Settles the nodes that wait at this place or a later one.
fn settle(waiting: &[usize], place: usize, standings: &mut [Standing])
    requires placed { place ≤ length waiting.now }
    requires within { All (λ node. node < length standings.old) waiting.now }
    ensures { AreSettled waiting.now place (length waiting.now) standings.old standings.new }
{
    for at in place..waiting.len() {
        standings[waiting[at]] = Standing::Settled;
    }
}

/// For each node whether `start` reaches it and it reaches itself by a path that is not empty. `graph` has for each
/// node the nodes that it refers to. The time is in proportion to the nodes and references, and the stack does not grow
/// with them.
///
/// It searches in depth first, and all nodes that wait reach the one that it is at. So a node is on a cycle where one
/// of its references waits as the search leaves it. Where neither it nor a node that waits after it leads to a place
/// below its own, all of these are settled.
pub fn cyclic_nodes(
    alloc: Global,
    graph: &[Items<usize>],
    start: usize,
) -> Result<Vec<bool>, Memory>
    requires within { AreWithin graph.now }
    requires inside { start < length graph.now }
    ensures { IfOk result (λ marks. CyclesMarked graph.now start marks.items) }
{
    let mut marks = vec![in alloc; false; graph.len()]?;
    let mut standings = vec![in alloc; Standing::Unseen; graph.len()]?;
    standings[start] = Standing::Waiting(0);
    let mut waiting = vec![in alloc; start]?;
    let mut trail = Vec::new(alloc);
    let mut entry = entered(start, 0);
    'steps: loop {
        let references = references_of(graph, entry.node);
        if let Some(next) = next_unseen(references, entry.next, &standings) {
            let place = waiting.len();
            trail.push(Entry { next, ..entry })?;
            entry = entered(references[next], place);
            standings[entry.node] = Standing::Waiting(place);
            waiting.push(entry.node)?;
            continue;
        }
        let found = least_waiting(references, &standings);
        marks[entry.node] = found.is_some();
        let least = entry.least.min(found.unwrap_or(entry.place));
        if least == entry.place {
            settle(&waiting, entry.place, &mut standings);
            waiting.truncate(entry.place);
        }
        let Some(below) = trail.pop() else {
            return Ok(marks);
        };
        entry = lowered(below, least);
    }
}

/// The least node that `start` reaches, itself among them, and that reaches itself by a path that is not empty; None
/// where there is none. `graph` has for each node the nodes that it refers to. The time is in proportion to the nodes
/// and references, and the stack does not grow with them.
pub fn least_cyclic(
    alloc: Global,
    graph: &[Items<usize>],
    start: usize,
) -> Result<Option<usize>, Memory>
    requires within { AreWithin graph.now }
    requires inside { start < length graph.now }
    ensures least { IfOk result (λ found. IfSome found (IsLeastCyclic graph.now start)) }
    ensures none { IfOk result (λ found. IfNone found (IsAcyclic graph.now start)) }
{
    let marks = cyclic_nodes(alloc, graph, start)?;
    for node in 0..graph.len() {
        if marks[node] {
            return Ok(Some(node));
        }
    }
    Ok(None)
}
