ghost use Rattle.std.specs.Prelude.{◌≡◌, IfOk, map};
ghost use Rattle.spice_text.specs.Words.{lower};
ghost use Rattle.spice_netlist.specs.Names.{index_of};
ghost use Rattle.spice_netlist.specs.Found.{found};
ghost use Rattle.spice_netlist.specs.Resolved.{names_of, resolved_instance, is_leaf, resolved_subckt, resolved_subckts};

use crate::lower::{lower_name, lower_names, subckt_names};
use crate::name_index::{NameIndex, index_names};
use crate::resolved::{ResolvedInstance, ResolvedSubckt};
use netlist::{Instance, Subckt};
use or_geom::{Items, Memory, Name};
use std::alloc::Global;

/// A deck with its names resolved, and the index of the top; None where it isn't there.
#[derive(Drop)]
pub struct ResolvedDeck {
    pub subckts: Items<ResolvedSubckt>,
    pub top: Option<usize>,
}

/// An instance with its names resolved.
fn resolved_instance(
    alloc: Global,
    subckt_index: &NameIndex,
    instance: &Instance,
) -> Result<ResolvedInstance, Memory>
    ensures { IfOk result (λ resolved. resolved ≡ resolved_instance (found subckt_index.now) instance.now) }
{
    let name = lower_name(alloc, &instance.name)?;
    let nodes = lower_names(alloc, instance.nodes.as_slice())?;
    let of = lower_name(alloc, &instance.of)?;
    let index = subckt_index.find(of.as_bytes());
    Ok(ResolvedInstance {
        name,
        nodes,
        of,
        index,
    })
}

/// The instances with their names resolved.
fn resolved_instances(
    alloc: Global,
    subckt_index: &NameIndex,
    instances: &[Instance],
) -> Result<Items<ResolvedInstance>, Memory>
    ensures { IfOk result (λ resolved. resolved ≡ map (resolved_instance (found subckt_index.now)) instances.now) }
{
    let mut resolved = Vec::new(alloc);
    for instance in instances {
        resolved.push(resolved_instance(alloc, subckt_index, instance)?)?;
    }
    Ok(Items::from_vec(resolved))
}

/// Whether the subcircuit of this name in lower case is a leaf.
fn is_leaf(top: &Name, leaves: &NameIndex, subckt: &Subckt, name: &Name) -> bool
    requires { name.now ≡ lower subckt.now.name }
    ensures { result ≡ is_leaf top.now (found leaves.now) subckt.now }
{
    if name.is(top.as_bytes()) {
        return false;
    }
    leaves.find(name.as_bytes()).is_some() || subckt.instances.as_slice().is_empty()
}

/// The subcircuit with its names resolved.
fn resolved_subckt(
    alloc: Global,
    top: &Name,
    leaves: &NameIndex,
    subckt_index: &NameIndex,
    subckt: &Subckt,
) -> Result<ResolvedSubckt, Memory>
    ensures { IfOk result (λ resolved. resolved ≡ resolved_subckt top.now (found leaves.now)
        (found subckt_index.now) subckt.now) }
{
    let name = lower_name(alloc, &subckt.name)?;
    let ports = lower_names(alloc, subckt.ports.as_slice())?;
    let leaf = is_leaf(top, leaves, subckt, &name);
    let instances = if leaf {
        Items::new(alloc)
    } else {
        resolved_instances(alloc, subckt_index, subckt.instances.as_slice())?
    };
    Ok(ResolvedSubckt {
        name,
        ports,
        leaf,
        instances,
    })
}

/// The subcircuits with their names resolved.
fn resolved_subckts(
    alloc: Global,
    top: &Name,
    leaves: &NameIndex,
    subckt_index: &NameIndex,
    subckts: &[Subckt],
) -> Result<Items<ResolvedSubckt>, Memory>
    ensures { IfOk result (λ resolved. resolved
        ≡ map (resolved_subckt top.now (found leaves.now) (found subckt_index.now)) subckts.now) }
{
    let mut resolved = Vec::new(alloc);
    for subckt in subckts {
        resolved.push(resolved_subckt(alloc, top, leaves, subckt_index, subckt)?)?;
    }
    Ok(Items::from_vec(resolved))
}

/// Resolves the names of the subcircuits, for a top in lower case and these leaves.
pub fn resolve(
    alloc: Global,
    subckts: &[Subckt],
    top: &Name,
    leaves: &[Name],
) -> Result<ResolvedDeck, Memory>
    ensures subckts { IfOk result (λ design. design.subckts ≡ resolved_subckts subckts.now top.now leaves.now) }
    ensures top { IfOk result (λ design. design.top ≡ index_of (names_of subckts.now) top.now) }
{
    let leaves = lower_names(alloc, leaves)?;
    let leaves = index_names(alloc, leaves.as_slice())?;
    let names = subckt_names(alloc, subckts)?;
    let subckt_index = index_names(alloc, names.as_slice())?;
    let subckts = resolved_subckts(alloc, top, &leaves, &subckt_index, subckts)?;
    let top = subckt_index.find(top.as_bytes());
    Ok(ResolvedDeck { subckts, top })
}
