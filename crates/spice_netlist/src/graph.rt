ghost use Rattle.std.specs.Prelude.{◌≡◌, IfOk};
ghost use Rattle.spice_netlist.specs.Resolved.{subckt_references, graph};

use crate::resolved::{ResolvedInstance, ResolvedSubckt};
use or_geom::{Items, Memory};
use std::alloc::Global;

/// The indices of the subcircuits that the instances are instances of.
fn references_in(alloc: Global, instances: &[ResolvedInstance]) -> Result<Items<usize>, Memory>
    ensures { IfOk result (λ list. list ≡ subckt_references instances.now) }
{
    let mut list = Vec::new(alloc);
    for instance in instances {
        let Some(index) = instance.index else {
            continue;
        };
        list.push(index)?;
    }
    Ok(Items::from_vec(list))
}

/// For each subcircuit the indices of those that it refers to.
pub fn graph_of(alloc: Global, subckts: &[ResolvedSubckt]) -> Result<Vec<Items<usize>>, Memory>
    ensures { IfOk result (λ list. list.items ≡ graph subckts.now) }
{
    let mut list = Vec::new(alloc);
    for subckt in subckts {
        list.push(references_in(alloc, subckt.instances.as_slice())?)?;
    }
    Ok(list)
}
