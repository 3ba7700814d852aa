ghost use Rattle.std.specs.Prelude.{◌↔◌, ◌+◌, ◌<◌, length, IsTrue, MatchOption, OnOk};
ghost use Rattle.drawn_devices.specs.CutCell.{IsCutCell};
ghost use Rattle.drawn_devices.specs.DrawnChannels.{AreFirstChannels};
ghost use Rattle.drawn_devices.specs.SameLayers.{HasNoneAlike, HaveSameLayers, IsAlikeBefore, IsSameAdded};

use crate::cut_cell::CutCell;
use crate::drawn::DeviceChannel;
use or_geom::{Items, Memory};
use tech_rules::Device;

/// Whether the devices have the same three layers, and so the same channels.
fn have_same_layers(device: &Device, other: &Device) -> bool
    ensures { IsTrue result ↔ HaveSameLayers device.now other.now }
{
    if device.gate != other.gate {
        return false;
    }
    if device.active != other.active {
        return false;
    }
    device.by == other.by
}

/// The index of an earlier device that has the layers of the one at the index, if there is such.
pub fn earlier_alike(devices: &[Device], index: u16) -> Option<u16>
    requires { index < length devices.now }
    ensures { MatchOption result (HasNoneAlike devices.now index) (IsAlikeBefore devices.now index) }
{
    for earlier in 0..index {
        if have_same_layers(&devices[usize::from(earlier)], &devices[usize::from(index)]) {
            return Some(earlier);
        }
    }
    None
}

/// Adds the channel of the one device that is the other's at this place, if the channel there is one of the other.
fn add_same(
    earlier: u16,
    index: u16,
    place: usize,
    out: &mut Items<DeviceChannel>,
) -> Result<(), Memory>
    requires { place < length out.old }
    ensures { OnOk result (IsSameAdded earlier index place out.old out.new) }
{
    let DeviceChannel {
        device,
        least,
        terminals,
    } = out.as_slice()[place];
    if device != earlier {
        return Ok(());
    }
    out.push(DeviceChannel {
        device: index,
        least,
        terminals,
    })
}

/// Adds the channels of a device that has the layers of an earlier one: they are those of that one. The cell is told
/// for proofs alone.
pub fn add_same_channels(
    _cell: &CutCell,
    other: u16,
    index: u16,
    out: &mut Items<DeviceChannel>,
) -> Result<(), Memory>
    requires cut { IsCutCell _cell.now }
    requires alike { IsAlikeBefore _cell.now.tech.now.devices index other }
    requires first { AreFirstChannels _cell.now index out.old }
    ensures { OnOk result (AreFirstChannels _cell.now (index + 1) out.new) }
{
    for place in 0..out.as_slice().len() {
        add_same(other, index, place, out)?;
    }
    Ok(())
}
