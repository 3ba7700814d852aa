ghost use Rattle.std.specs.Prelude.{◌≡◌, IfOk};
ghost use Rattle.device_lvs.specs.CompareSteps.{cell_pair, diff_of, AreComparedAs, IsDifferenceOfNames};
ghost use Rattle.device_lvs.specs.Difference.{AreApartNets};
ghost use Rattle.device_lvs.specs.EntrySteps.{HaveDevices};

use crate::difference::DeviceDiff;
use crate::entries::{ChannelEntries, channel_entries, first_unsound};
use crate::joined::least_joined;
use crate::split::least_split;
use device_entries::{DeviceEntry, Uneven, least_uneven};
use drawn_devices::{DrawnDevices, NetName};
use or_geom::{Memory, Name};
use std::alloc::Global;
use tech_rules::Device;

fn copy_of(alloc: Global, name: &Name) -> Result<Name, Memory>
    ensures { IfOk result (λ copy. copy ≡ name.now) }
{
    Name::from_bytes(alloc, name.as_bytes())
}

/// The difference that an entry is.
fn uneven_in(role: Name, uneven: Uneven) -> DeviceDiff
    ensures { result ≡ diff_of role uneven }
{
    match uneven {
        Uneven::Absent(
            DeviceEntry {
                model,
                gate,
                low,
                high,
            },
        ) => DeviceDiff::Absent {
            role,
            model,
            gate,
            low,
            high,
        },
        Uneven::Extra(
            DeviceEntry {
                model,
                gate,
                low,
                high,
            },
        ) => DeviceDiff::Extra {
            role,
            model,
            gate,
            low,
            high,
        },
    }
}

/// The first of two differences of names: a name on two nets, or two names on one.
fn difference_of_names(
    alloc: Global,
    role: &Name,
    names: &[NetName],
) -> Result<Option<DeviceDiff>, Memory>
    ensures { IfOk result (IsDifferenceOfNames role.now names.now) }
{
    if let Some(name) = least_split(alloc, names)? {
        let role = copy_of(alloc, role)?;
        return Ok(Some(DeviceDiff::Open { role, name }));
    }
    if let Some((first, second)) = least_joined(alloc, names)? {
        let role = copy_of(alloc, role)?;
        return Ok(Some(DeviceDiff::Short {
            role,
            first,
            second,
        }));
    }
    Ok(None)
}

/// The first of two differences of transistors, where channels are sound and each name is one net's: a terminal without
/// a name, or an entry that both sides don't have equally often.
fn difference_of_entries(
    alloc: Global,
    role: &Name,
    devices: &[Device],
    drawn: &DrawnDevices,
    listed: Vec<DeviceEntry>,
) -> Result<Option<DeviceDiff>, Memory>
    requires there { HaveDevices devices.now drawn.now.channels }
    requires apart { AreApartNets (cell_pair role.now devices.now drawn.now listed.items) }
    ensures { IfOk result (AreComparedAs (cell_pair role.now devices.now drawn.now listed.items)) }
{
    let entries = match channel_entries(alloc, devices, drawn)? {
        ChannelEntries::All(entries) => entries,
        ChannelEntries::Nameless(least) => {
            let role = copy_of(alloc, role)?;
            return Ok(Some(DeviceDiff::Nameless {
                role,
                x: least.x,
                y: least.y,
            }));
        }
    };
    match least_uneven(entries, listed) {
        Some(uneven) => Ok(Some(uneven_in(copy_of(alloc, role)?, uneven))),
        None => Ok(None),
    }
}

/// What a role's cell draws otherwise than its subcircuit says, if anything: the first in the order of `DeviceDiff`.
pub fn difference_in(
    alloc: Global,
    role: &Name,
    devices: &[Device],
    drawn: &DrawnDevices,
    listed: Vec<DeviceEntry>,
) -> Result<Option<DeviceDiff>, Memory>
    requires { HaveDevices devices.now drawn.now.channels }
    ensures { IfOk result (AreComparedAs (cell_pair role.now devices.now drawn.now listed.items)) }
{
    if let Some(least) = first_unsound(drawn.channels.as_slice()) {
        let role = copy_of(alloc, role)?;
        return Ok(Some(DeviceDiff::NotBox {
            role,
            x: least.x,
            y: least.y,
        }));
    }
    if let Some(difference) = difference_of_names(alloc, role, drawn.names.as_slice())? {
        return Ok(Some(difference));
    }
    difference_of_entries(alloc, role, devices, drawn, listed)
}
