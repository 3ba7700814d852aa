ghost use Rattle.std.specs.Prelude.{◌≡◌, ◌<◌, length, All, IfOk, OnOk};
ghost use Rattle.reference_graph.specs.Reaches.{AreWithin, MarksReached};
ghost use Rattle.reference_graph.specs.Spread.{Spreads};

use crate::nodes::references_of;
use or_geom::{Items, Memory};
use std::alloc::Global;

/// Marks the references that have no mark yet, and adds them to the nodes that were found.
fn mark_references(
    references: &[usize],
    marks: &mut [bool],
    found: &mut Vec<usize>,
) -> Result<(), Memory>
    requires { All (λ node. node < length marks.old) references.now }
    ensures { OnOk result (Spreads references.now marks.old found.old.items marks.new found.new.items) }
{
    for node in references {
        if !marks[*node] {
            marks[*node] = true;
            found.push(*node)?;
        }
    }
    Ok(())
}

/// Marks the nodes that `start` reaches along references, itself among them. `graph` has for each node the nodes that
/// it refers to. The time is in proportion to the number of nodes and references, and the stack does not grow with
/// them.
pub fn reached(alloc: Global, graph: &[Items<usize>], start: usize) -> Result<Vec<bool>, Memory>
    requires within { AreWithin graph.now }
    requires inside { start < length graph.now }
    ensures { IfOk result (λ marks. MarksReached graph.now start marks.items) }
{
    let mut marks = vec![in alloc; false; graph.len()]?;
    marks[start] = true;
    let mut found = vec![in alloc; start]?;
    let mut place = 0;
    while place < found.len() {
        let node = found[place];
        mark_references(references_of(graph, node), &mut marks, &mut found)?;
        place += 1;
    }
    Ok(marks)
}
