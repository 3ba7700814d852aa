ghost use Rattle.std.specs.Prelude.{◌≢◌, ◌<◌, length, IfOk, MatchOption, None};
ghost use Rattle.device_lvs.specs.ChannelEntries.{IsNotSound, IsNameless, IsEntryOf, AreNamed, HasEntry};
ghost use Rattle.device_lvs.specs.ChannelEntries.{IsFirstChannel, HasNoneOf};
ghost use Rattle.device_lvs.specs.EntrySteps.{HaveDevices, AreReadAs};
ghost use Rattle.device_lvs.specs.Lookup.{table_names, IsSearchable};

use crate::lookup::{NameTable, table_of};
use device_entries::{DeviceEntry, entry_of};
use drawn_devices::{DeviceChannel, DrawnDevices, Terminals};
use or_geom::{Items, Memory, Point};
use std::alloc::Global;
use tech_rules::Device;

/// The transistors of a layout's channels, or the first of these with a terminal whose net has no name.
#[derive(Drop)]
pub enum ChannelEntries {
    All(Vec<DeviceEntry>),
    Nameless(Point),
}

/// The first channel that isn't sound, by its least corner.
pub fn first_unsound(channels: &[DeviceChannel]) -> Option<Point>
    ensures { MatchOption result (HasNoneOf IsNotSound channels.now)
        (λ p. IsFirstChannel IsNotSound channels.now p.x p.y) }
{
    for channel in channels {
        if channel.terminals.is_none() {
            return Some(channel.least);
        }
    }
    None
}

/// The transistor of a device with these terminals, if all of their nets have names.
fn entry_at(
    alloc: Global,
    table: &NameTable,
    device: &Device,
    terminals: Terminals,
) -> Result<Option<DeviceEntry>, Memory>
    requires { IsSearchable table.now }
    ensures { IfOk result (λ e. MatchOption e (AreNamed (table_names table.now) terminals
        → ⊥) (HasEntry (table_names table.now) device.now terminals)) }
{
    let Some(gate) = table.name_of(terminals.gate) else {
        return Ok(None);
    };
    let Some(first) = table.name_of(terminals.first) else {
        return Ok(None);
    };
    let Some(second) = table.name_of(terminals.second) else {
        return Ok(None);
    };
    let model = device.model.as_bytes().to_ascii_lowercase(alloc)?;
    Ok(Some(entry_of(alloc, &model, gate, first, second)?))
}

/// The transistor of a sound channel, if all of its terminals' nets have names.
fn read_channel(
    alloc: Global,
    table: &NameTable,
    devices: &[Device],
    channel: &DeviceChannel,
) -> Result<Option<DeviceEntry>, Memory>
    requires search { IsSearchable table.now }
    requires sound { channel.now.terminals ≢ None }
    requires there { channel.now.device < length devices.now }
    ensures { IfOk result (λ e. MatchOption e (IsNameless (table_names table.now) channel.now)
        (IsEntryOf devices.now (table_names table.now) channel.now)) }
{
    let Some(terminals) = channel.terminals else {
        unreachable!();
    };
    entry_at(
        alloc,
        table,
        &devices[usize::from(channel.device)],
        terminals,
    )
}

/// The transistors of sound channels, by a table of their nets' names.
fn read_channels(
    alloc: Global,
    table: &NameTable,
    devices: &[Device],
    channels: &[DeviceChannel],
) -> Result<ChannelEntries, Memory>
    requires search { IsSearchable table.now }
    requires sound { HasNoneOf IsNotSound channels.now }
    requires there { HaveDevices devices.now channels.now }
    ensures { IfOk result (AreReadAs devices.now (table_names table.now) channels.now) }
{
    let mut entries = Items::new(alloc);
    for place in 0..channels.len() {
        match read_channel(alloc, table, devices, &channels[place])? {
            Some(entry) => entries.push(entry)?,
            None => return Ok(ChannelEntries::Nameless(channels[place].least)),
        }
    }
    Ok(ChannelEntries::All(entries.into_vec()))
}

/// The transistors of sound channels.
pub fn channel_entries(
    alloc: Global,
    devices: &[Device],
    drawn: &DrawnDevices,
) -> Result<ChannelEntries, Memory>
    requires sound { HasNoneOf IsNotSound drawn.now.channels }
    requires there { HaveDevices devices.now drawn.now.channels }
    ensures { IfOk result (AreReadAs devices.now drawn.now.names drawn.now.channels) }
{
    let table = table_of(alloc, drawn.names.as_slice())?;
    read_channels(alloc, &table, devices, drawn.channels.as_slice())
}
