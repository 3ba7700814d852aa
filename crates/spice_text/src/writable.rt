ghost use Rattle.std.specs.Prelude.{◌≡◌, ◌↔◌, [], map, not, IfOk, OnOk, IsTrue};
ghost use Rattle.std.specs.List.{list_all};
ghost use Rattle.spice_text.specs.Words.{is_among, lower, with_name};
ghost use Rattle.spice_text.specs.Subcircuits.{has_repeat};
ghost use Rattle.spice_text.specs.Writable.{instance_name, subckt_name, AreWritable};
ghost use Rattle.spice_text.specs.WritableTests as test;

use crate::name_set::NameSet;
use crate::words::lowered;
use netlist::{Instance, Subckt};
use or_geom::{Memory, Name};
use std::alloc::Global;

/// Whether a name can hold the byte.
fn is_name_byte(byte: u8) -> bool
    ensures { result ≡ test.is_name_byte byte }
{
    33 <= byte && byte <= 126 && byte != b'='
}

fn are_name_bytes(bytes: &[u8]) -> bool
    ensures { result ≡ list_all test.is_name_byte bytes.now }
{
    bytes.iter().all(|b| is_name_byte(*b))
}

/// Whether a name is written as one word that is no assignment.
fn is_name(name: &[u8]) -> bool
    ensures { result ≡ test.is_name name.now }
{
    !name.is_empty() && are_name_bytes(name)
}

fn are_names(names: &[Name]) -> bool
    ensures { result ≡ list_all test.is_name names.now }
{
    names.iter().all(|name| is_name(name.as_bytes()))
}

/// Whether a line that begins with this name is an instance.
fn begins_with_x(name: &[u8]) -> bool
    ensures { result ≡ test.begins_with_x name.now }
{
    match name {
        [first, ..] => *first == b'x' || *first == b'X',
        [] => false,
    }
}

/// Whether the line that is written of an instance is read as one.
fn is_instance(instance: &Instance) -> bool
    ensures { result ≡ test.is_instance instance.now }
{
    let name = instance.name.as_bytes();
    is_name(name)
        && begins_with_x(name)
        && are_names(instance.nodes.as_slice())
        && is_name(instance.of.as_bytes())
}

fn are_instances(instances: &[Instance]) -> bool
    ensures { result ≡ list_all test.is_instance instances.now }
{
    instances.iter().all(|instance| is_instance(instance))
}

/// Whether a subcircuit has no other lines, and names that can be written.
fn has_only_names(subckt: &Subckt) -> bool
    ensures { result ≡ test.has_only_names subckt.now }
{
    subckt.raw.as_slice().is_empty()
        && is_name(subckt.name.as_bytes())
        && are_names(subckt.ports.as_slice())
        && are_instances(subckt.instances.as_slice())
}

/// Adds a name in lower case, and says whether it is new.
fn add_name(alloc: Global, seen: &mut NameSet, name: &Name) -> Result<bool, Memory>
    ensures new { IfOk result (λ new. new ≡ not (is_among (lower name.now) seen.old)) }
    ensures names { OnOk result (seen.new ≡ with_name seen.old (lower name.now)) }
{
    let lower = lowered(alloc, name.as_bytes())?;
    seen.add(alloc, lower.as_slice())
}

/// Whether a name stands among the names twice, without regard to case.
fn names_repeat(alloc: Global, names: &[Name]) -> Result<bool, Memory>
    ensures { IfOk result (λ repeats. repeats ≡ has_repeat [] (map lower names.now)) }
{
    let mut seen = NameSet::new(alloc);
    for name in names {
        if !add_name(alloc, &mut seen, name)? {
            return Ok(true);
        }
    }
    Ok(false)
}

/// Whether two instances have one name, without regard to case.
fn instances_repeat(alloc: Global, instances: &[Instance]) -> Result<bool, Memory>
    ensures { IfOk result (λ repeats. repeats ≡ has_repeat [] (map instance_name instances.now)) }
{
    let mut seen = NameSet::new(alloc);
    for instance in instances {
        if !add_name(alloc, &mut seen, &instance.name)? {
            return Ok(true);
        }
    }
    Ok(false)
}

/// Whether two subcircuits have one name, without regard to case.
fn subckts_repeat(alloc: Global, subckts: &[Subckt]) -> Result<bool, Memory>
    ensures { IfOk result (λ repeats. repeats ≡ has_repeat [] (map subckt_name subckts.now)) }
{
    let mut seen = NameSet::new(alloc);
    for subckt in subckts {
        if !add_name(alloc, &mut seen, &subckt.name)? {
            return Ok(true);
        }
    }
    Ok(false)
}

/// Whether the subcircuit can be written, whatever the others are called.
fn is_writable(alloc: Global, subckt: &Subckt) -> Result<bool, Memory>
    ensures { IfOk result (λ writable. writable ≡ test.is_writable subckt.now) }
{
    if !has_only_names(subckt) {
        return Ok(false);
    }
    if names_repeat(alloc, subckt.ports.as_slice())? {
        return Ok(false);
    }
    let repeats = instances_repeat(alloc, subckt.instances.as_slice())?;
    Ok(!repeats)
}

/// Whether `write_spice` can write the subcircuits: whether every name has one or more bytes, all of them from 21 to 7E
/// and none `=`, instances' names begin with x or X, no subcircuit has other lines, and, without regard to case, the
/// names of the subcircuits, of the ports of each and of its instances differ.
pub fn are_writable(alloc: Global, subckts: &[Subckt]) -> Result<bool, Memory>
    ensures { IfOk result (λ writable. IsTrue writable ↔ AreWritable subckts.now) }
{
    for subckt in subckts {
        if !is_writable(alloc, subckt)? {
            return Ok(false);
        }
    }
    let repeats = subckts_repeat(alloc, subckts)?;
    Ok(!repeats)
}
