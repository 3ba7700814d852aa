ghost use Rattle.std.specs.Prelude.{◌≡◌, IfOk, map};
ghost use Rattle.spice_text.specs.Words.{lower};
ghost use Rattle.spice_netlist.specs.Resolved.{names_of};

use netlist::Subckt;
use or_geom::{Items, Memory, Name};
use std::alloc::Global;

/// The name in lower case.
pub fn lower_name(alloc: Global, name: &Name) -> Result<Name, Memory>
    ensures { IfOk result (λ lowered. lowered ≡ lower name.now) }
{
    let bytes = name.as_bytes().to_ascii_lowercase(alloc)?;
    Name::from_bytes(alloc, &bytes)
}

/// The names in lower case.
pub fn lower_names(alloc: Global, names: &[Name]) -> Result<Items<Name>, Memory>
    ensures { IfOk result (λ lowered. lowered ≡ map lower names.now) }
{
    let mut lowered = Vec::new(alloc);
    for name in names {
        lowered.push(lower_name(alloc, name)?)?;
    }
    Ok(Items::from_vec(lowered))
}

/// The names of the subcircuits in lower case.
pub fn subckt_names(alloc: Global, subckts: &[Subckt]) -> Result<Items<Name>, Memory>
    ensures { IfOk result (λ names. names ≡ names_of subckts.now) }
{
    let mut names = Vec::new(alloc);
    for subckt in subckts {
        names.push(lower_name(alloc, &subckt.name)?)?;
    }
    Ok(Items::from_vec(names))
}
