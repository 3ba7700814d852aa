ghost use Rattle.std.specs.Prelude.{IfOk};
ghost use Rattle.reference_graph.specs.Reaches.{MarksReached};
ghost use Rattle.spice_netlist.specs.Resolved.{graph};
ghost use Rattle.spice_netlist.specs.Least.{IsLeastOf, IsMissingIn};
ghost use Rattle.spice_netlist.specs.Faults.{IsUnknownSubckt};

use crate::least::lesser;
use crate::resolved::{ResolvedInstance, ResolvedSubckt};
use crate::table::subckt_at;
use or_geom::{Memory, Name};
use std::alloc::Global;

/// The least name to which an instance refers and that isn't there.
fn least_missing(alloc: Global, instances: &[ResolvedInstance]) -> Result<Option<Name>, Memory>
    ensures { IfOk result (IsLeastOf (IsMissingIn instances.now)) }
{
    let mut found = None;
    for instance in instances {
        if instance.index.is_some() {
            continue;
        }
        found = lesser(alloc, found, &instance.of)?;
    }
    Ok(found)
}

/// The least name to which a marked subcircuit refers and that isn't there. Those that the top reaches are marked.
pub fn least_unknown(
    alloc: Global,
    subckts: &[ResolvedSubckt],
    top: usize,
    marks: &[bool],
) -> Result<Option<Name>, Memory>
    requires { MarksReached (graph subckts.now) top marks.now }
    ensures { IfOk result (IsLeastOf (IsUnknownSubckt subckts.now top)) }
{
    let mut found = None;
    for index in 0..subckts.len() {
        if !marks[index] {
            continue;
        }
        let Some(name) = least_missing(alloc, subckt_at(subckts, index).instances.as_slice())?
        else {
            continue;
        };
        found = lesser(alloc, found, &name)?;
    }
    Ok(found)
}
