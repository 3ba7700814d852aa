ghost use Rattle.std.specs.Prelude.{◌≡◌, ◌++◌, IfOk, OnOk};

use crate::deck::{Deck, Instance, Subckt};
use or_geom::{Items, Memory, Name};
use std::alloc::Global;

fn copy_name(alloc: Global, name: &Name) -> Result<Name, Memory>
    ensures { IfOk result (λ copy. copy ≡ name.now) }
{
    Name::from_bytes(alloc, name.as_bytes())
}

fn copy_names(alloc: Global, names: &[Name]) -> Result<Items<Name>, Memory>
    ensures { IfOk result (λ copies. copies ≡ names.now) }
{
    let mut copies = Vec::new(alloc);
    for name in names {
        copies.push(copy_name(alloc, name)?)?;
    }
    Ok(Items::from_vec(copies))
}

fn copy_instance(alloc: Global, instance: &Instance) -> Result<Instance, Memory>
    ensures { IfOk result (λ copy. copy ≡ instance.now) }
{
    Ok(Instance {
        name: copy_name(alloc, &instance.name)?,
        nodes: copy_names(alloc, instance.nodes.as_slice())?,
        of: copy_name(alloc, &instance.of)?,
    })
}

fn copy_instances(alloc: Global, instances: &[Instance]) -> Result<Items<Instance>, Memory>
    ensures { IfOk result (λ copies. copies ≡ instances.now) }
{
    let mut copies = Vec::new(alloc);
    for instance in instances {
        copies.push(copy_instance(alloc, instance)?)?;
    }
    Ok(Items::from_vec(copies))
}

fn copy_subckt(alloc: Global, subckt: &Subckt) -> Result<Subckt, Memory>
    ensures { IfOk result (λ copy. copy ≡ subckt.now) }
{
    Ok(Subckt {
        name: copy_name(alloc, &subckt.name)?,
        ports: copy_names(alloc, subckt.ports.as_slice())?,
        instances: copy_instances(alloc, subckt.instances.as_slice())?,
        raw: copy_names(alloc, subckt.raw.as_slice())?,
    })
}

/// Adds copies of subcircuits.
fn add_copies(alloc: Global, subckts: &[Subckt], copies: &mut Vec<Subckt>) -> Result<(), Memory>
    ensures { OnOk result (copies.new.items ≡ copies.old.items ++ subckts.now) }
{
    for subckt in subckts {
        copies.push(copy_subckt(alloc, subckt)?)?;
    }
    Ok(())
}

/// A copy of two decks as one: the subcircuits of the first, and those of the second behind them. No text was read for
/// it, so that `used` is 0.
pub fn joined_decks(alloc: Global, first: &Deck, second: &Deck) -> Result<Deck, Memory>
    ensures subckts { IfOk result (λ deck. deck.subckts ≡ first.now.subckts ++ second.now.subckts) }
    ensures used { IfOk result (λ deck. deck.used ≡ 0) }
{
    let mut subckts = Vec::new(alloc);
    add_copies(alloc, first.subckts.as_slice(), &mut subckts)?;
    add_copies(alloc, second.subckts.as_slice(), &mut subckts)?;
    Ok(Deck {
        subckts: Items::from_vec(subckts),
        used: 0,
    })
}
