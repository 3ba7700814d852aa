ghost use Rattle.std.specs.Prelude.{◌≡◌, ◌<◌, length, IfOk};
ghost use Rattle.reference_graph.specs.Reaches.{AreWithin};
ghost use Rattle.spice_netlist.specs.Resolved.{graph};
ghost use Rattle.spice_netlist.specs.Least.{IsLeastOf};
ghost use Rattle.spice_netlist.specs.Faults.{IsCyclicSubckt};

use crate::least::lesser;
use crate::resolved::ResolvedSubckt;
use crate::table::subckt_at;
use or_geom::{Items, Memory, Name};
use reference_graph::cyclic_nodes;
use std::alloc::Global;

/// The least name of a subcircuit that the top reaches and that reaches itself.
pub fn least_cyclic(
    alloc: Global,
    subckts: &[ResolvedSubckt],
    references: &[Items<usize>],
    top: usize,
) -> Result<Option<Name>, Memory>
    requires graph { references.now ≡ graph subckts.now }
    requires within { AreWithin references.now }
    requires inside { top < length references.now }
    ensures { IfOk result (IsLeastOf (IsCyclicSubckt subckts.now top)) }
{
    let marks = cyclic_nodes(alloc, references, top)?;
    let mut found = None;
    for index in 0..subckts.len() {
        if !marks[index] {
            continue;
        }
        found = lesser(alloc, found, &subckt_at(subckts, index).name)?;
    }
    Ok(found)
}
