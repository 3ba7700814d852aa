ghost use Rattle.std.specs.Prelude.{◌≡◌, IfOk, IfErr};
ghost use Rattle.std.specs.Option.{option_copied};
ghost use Rattle.std.specs.List.{find};
ghost use Rattle.std.specs.Str.{bytes_eq};
ghost use Rattle.or_geom.specs.Reachable.{AreReachable};
ghost use Rattle.gds_library.specs.Writable.{IsWritable};
ghost use Rattle.spice_text.specs.Words.{lower};
ghost use Rattle.tech_rules.specs.Facts.{IsTech};
ghost use Rattle.cell_hierarchy.specs.FlatLists.{AreFlatLists};
ghost use Rattle.cell_hierarchy.specs.Plain.{lists_of};
ghost use Rattle.device_lvs.specs.Roles.{AreListedEntries, IsListFault, IsFaultOfRole};
ghost use Rattle.device_lvs.specs.RoleSteps.{leaf_files, IsRoleComparedAs, IsFlattenFault, ArePlainEntries};
ghost use Rattle.device_lvs.specs.RoleSteps.{IsPlainFault};

use crate::compare::difference_in;
use crate::difference::DeviceDiff;
use crate::fault::DeviceFault;
use bumpalo::Bump;
use cell_hierarchy::{Flat, flatten};
use device_entries::{DeviceEntry, LineFault, line_entries};
use drawn_devices::drawn_devices;
use gds_library::Library;
use netlist::{Deck, Subckt};
use or_geom::{Memory, Name};
use std::alloc::Global;
use tech_rules::{RoleName, Tech};

/// The name in lower case.
fn lower_name(alloc: Global, name: &Name) -> Result<Name, Memory>
    ensures { IfOk result (λ lowered. lowered ≡ lower name.now) }
{
    let bytes = name.as_bytes().to_ascii_lowercase(alloc)?;
    Ok(Name::from_vec(bytes))
}

/// The first subcircuit of this name.
fn subckt_named<'a>(subckts: &'a [Subckt], name: &Name) -> Option<&'a Subckt>
    ensures { option_copied result ≡ find (λ subckt. bytes_eq subckt.name name.now) subckts.now }
{
    for subckt in subckts {
        if subckt.name.is(name.as_bytes()) {
            return Some(subckt);
        }
    }
    None
}

/// The transistors of a subcircuit, which has no instance.
fn plain_entries(
    alloc: Global,
    role: &Name,
    subckt: &Subckt,
) -> Result<Vec<DeviceEntry>, DeviceFault>
    ensures listed { IfOk result (λ e. ArePlainEntries subckt.now e.items) }
    ensures fault { IfErr result (IsPlainFault role.now subckt.now) }
{
    if !subckt.instances.as_slice().is_empty() {
        return Err(DeviceFault::Nested {
            role: Name::from_bytes(alloc, role.as_bytes())?,
        });
    }
    match line_entries(alloc, subckt.raw.as_slice()) {
        Ok(entries) => Ok(entries),
        Err(LineFault::BadDevice { line }) => Err(DeviceFault::BadDevice {
            role: Name::from_bytes(alloc, role.as_bytes())?,
            line,
        }),
        Err(LineFault::Memory) => Err(DeviceFault::Memory),
    }
}

/// The transistors of the subcircuit of a role's cell.
fn listed_of(alloc: Global, deck: &Deck, entry: &RoleName) -> Result<Vec<DeviceEntry>, DeviceFault>
    ensures listed { IfOk result (λ l. AreListedEntries deck.now.subckts entry.now l.items) }
    ensures fault { IfErr result (IsListFault deck.now.subckts entry.now) }
{
    let name = lower_name(alloc, &entry.cell)?;
    match subckt_named(deck.subckts.as_slice(), &name) {
        Some(subckt) => plain_entries(alloc, &entry.role, subckt),
        None => Err(DeviceFault::UnknownSubckt { name }),
    }
}

/// The flat layout of a cell.
fn flat_of<'b>(
    alloc: Global,
    bump: &'b Bump,
    tech: &Tech,
    lib: &Library,
    cell: &Name,
) -> Result<Flat<'b>, DeviceFault>
    requires tech { IsTech tech.now }
    requires writable { IsWritable lib.now }
    ensures flat { IfOk result (λ flat. AreFlatLists tech.now.layers lib.now.structs cell.now (lists_of flat)) }
    ensures near { IfOk result (λ flat. AreReachable flat.shapes.now) }
    ensures fault { IfErr result (IsFlattenFault tech.now.layers lib.now.structs cell.now) }
{
    Ok(flatten(alloc, bump, lib, tech, cell)?)
}

/// What a role's cell draws otherwise than its subcircuit says, if anything.
pub fn role_difference(
    alloc: Global,
    tech: &Tech,
    lib: &Library,
    deck: &Deck,
    entry: &RoleName,
) -> Result<Option<DeviceDiff>, DeviceFault>
    requires tech { IsTech tech.now }
    requires writable { IsWritable lib.now }
    ensures compared { IfOk result (IsRoleComparedAs (leaf_files tech.now lib.now deck.now) entry.now) }
    ensures fault { IfErr result (IsFaultOfRole (leaf_files tech.now lib.now deck.now) entry.now) }
{
    let bump = Bump::new(alloc);
    let flat = flat_of(alloc, &bump, tech, lib, &entry.cell)?;
    let listed = listed_of(alloc, deck, entry)?;
    let drawn = drawn_devices(alloc, tech, &flat)?;
    Ok(difference_in(alloc, &entry.role, tech.devices.as_slice(), &drawn, listed)?)
}
