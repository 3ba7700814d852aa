ghost use Rattle.std.specs.Prelude.{◌≡◌, length, MatchOption, Contains, None, IfOk};
ghost use Rattle.spice_netlist.specs.Bad.{bad_at, bad_in, has_bad, IsBadInstance};
ghost use Rattle.spice_netlist.specs.Tables.{HoldsForReferences, IsTable, IsSubcktOrder};

use crate::resolved::{ResolvedInstance, ResolvedSubckt};
use crate::table::{entry, subckt_at};
use or_geom::{Items, Memory};
use std::alloc::Global;

/// The instance that is, or has inside it, the first instance that has not as many nodes as its subcircuit has ports.
#[derive(Clone, Copy)]
enum BadInstance<'a> {
    Itself {
        name: &'a [u8],
    },
    Inside {
        name: &'a [u8],
        /// The index of the instance's subcircuit.
        index: usize,
    },
}

/// The first of the instances that has not as many nodes as its subcircuit has ports, or has such an instance inside
/// it. `below` says for each subcircuit that they refer to whether there is one below it.
fn bad_instance<'a>(
    subckts: &[ResolvedSubckt],
    instances: &'a [ResolvedInstance],
    below: &[bool],
) -> Option<BadInstance<'a>>
    requires sized { length below.now ≡ length subckts.now }
    requires known { HoldsForReferences (has_bad subckts.now) below.now instances.now }
    ensures { MatchOption result (bad_in subckts.now instances.now ≡ None) (IsBadInstance subckts.now instances.now) }
{
    for instance in instances {
        let Some(index) = instance.index else {
            continue;
        };
        let name = instance.name.as_bytes();
        let ports = subckt_at(subckts, index).ports.as_slice();
        if instance.nodes.as_slice().len() != ports.len() {
            return Some(BadInstance::Itself { name });
        }
        if *entry(below, index) {
            return Some(BadInstance::Inside { name, index });
        }
    }
    None
}

/// For each subcircuit of the order whether there is an instance below it that has not as many nodes as its subcircuit
/// has ports.
fn bad_marks(
    alloc: Global,
    subckts: &[ResolvedSubckt],
    order: &[usize],
) -> Result<Vec<bool>, Memory>
    requires { IsSubcktOrder subckts.now order.now }
    ensures sized { IfOk result (λ marks. length marks.items ≡ length subckts.now) }
    ensures table { IfOk result (λ marks. IsTable (has_bad subckts.now) order.now marks.items) }
{
    let mut marks = vec![in alloc; false; subckts.len()]?;
    for node in order {
        let instances = subckt_at(subckts, *node).instances.as_slice();
        marks[*node] = bad_instance(subckts, instances, &marks).is_some();
    }
    Ok(marks)
}

/// The path of the first instance below the top that has not as many nodes as its subcircuit has ports; None where
/// there is none. `order` has the top, and each subcircuit after all that it refers to.
pub fn bad_path(
    alloc: Global,
    subckts: &[ResolvedSubckt],
    order: &[usize],
    top: usize,
) -> Result<Option<Items<u8>>, Memory>
    requires upward { IsSubcktOrder subckts.now order.now }
    requires listed { Contains order.now top }
    ensures { IfOk result (λ path. path ≡ bad_at subckts.now top) }
{
    // For each subcircuit only a mark is kept, since paths are as long as the hierarchy is deep.
    let marks = bad_marks(alloc, subckts, order)?;
    let mut path = Vec::new(alloc);
    let mut index = top;
    'levels: loop {
        match bad_instance(
            subckts,
            subckt_at(subckts, index).instances.as_slice(),
            &marks,
        ) {
            None => return Ok(None),
            Some(BadInstance::Itself { name }) => {
                path.extend_from_slice(name)?;
                return Ok(Some(Items::from_vec(path)));
            }
            Some(BadInstance::Inside { name, index: next }) => {
                path.extend_from_slice(name)?;
                path.push(b'/')?;
                index = next;
            }
        }
    }
}
