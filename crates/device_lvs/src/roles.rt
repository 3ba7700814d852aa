ghost use Rattle.std.specs.Prelude.{◌≡◌, ◌↔◌, ◌<◌, IfOk, IfErr, IsTrue, length};
ghost use Rattle.std.specs.Option.{option_or};
ghost use Rattle.gds_library.specs.Writable.{IsWritable};
ghost use Rattle.tech_rules.specs.Facts.{IsTech};
ghost use Rattle.device_lvs.specs.Answer.{IsDeviceAnswer, IsDeviceFault};
ghost use Rattle.device_lvs.specs.RoleSteps.{leaf_files, HasEarlierCell};

use crate::difference::DeviceDiff;
use crate::fault::DeviceFault;
use crate::role::role_difference;
use gds_library::Library;
use netlist::Deck;
use std::alloc::Global;
use tech_rules::{RoleName, Tech};

/// The first of two differences.
fn earlier(first: Option<DeviceDiff>, found: Option<DeviceDiff>) -> Option<DeviceDiff>
    ensures { result ≡ option_or first found }
{
    match first {
        Some(difference) => Some(difference),
        None => found,
    }
}

/// Whether two roles have one cell.
fn have_one_cell(role: &RoleName, other: &RoleName) -> bool
    ensures { IsTrue result ↔ (role.now.cell ≡ other.now.cell) }
{
    role.cell.is(other.cell.as_bytes())
}

/// Whether an earlier role has the cell of the role at the place.
fn has_earlier_cell(roles: &[RoleName], place: usize) -> bool
    requires { place < length roles.now }
    ensures { IsTrue result ↔ HasEarlierCell roles.now place }
{
    for earlier in 0..place {
        if have_one_cell(&roles[earlier], &roles[place]) {
            return true;
        }
    }
    false
}

/// What the cells of a technology's roles draw otherwise than their subcircuits say, if anything: the first difference,
/// by role. Refused is a technology without devices, and then the first role, in the technology's order, whose cell has
/// no flat layout, or whose subcircuit is missing, has an instance, or has an M line with fewer than six words.
pub fn devices(
    alloc: Global,
    tech: &Tech,
    lib: &Library,
    deck: &Deck,
) -> Result<Option<DeviceDiff>, DeviceFault>
    requires tech { IsTech tech.now }
    requires writable { IsWritable lib.now }
    ensures answer { IfOk result (IsDeviceAnswer (leaf_files tech.now lib.now deck.now)) }
    ensures fault { IfErr result (IsDeviceFault (leaf_files tech.now lib.now deck.now)) }
{
    if tech.devices.as_slice().is_empty() {
        return Err(DeviceFault::NoDevices);
    }
    let mut first = None;
    let roles = tech.roles.as_slice();
    for place in 0..roles.len() {
        // A cell that several roles have is looked at for the first of them, and differs for that one if it differs.
        if has_earlier_cell(roles, place) {
            continue;
        }
        let found = role_difference(alloc, tech, lib, deck, &roles[place])?;
        first = earlier(first, found);
    }
    Ok(first)
}
