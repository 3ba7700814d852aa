ghost use Rattle.std.specs.Prelude.{◌≡◌, ◌+◌, ◌<◌, ◌≤◌, length, map, slice_get, Some, IfOk, OnOk};
ghost use Rattle.or_geom.specs.Reachable.{AreReachable};
ghost use Rattle.cell_hierarchy.specs.Plain.{plain_label};
ghost use Rattle.drawn_devices.specs.ChannelBoxes.{AreChannelBoxes, low_cell};
ghost use Rattle.or_geom.specs.declared.shape.Rect.{Rect};
ghost use Rattle.drawn_devices.specs.CutCell.{IsCutCell};
ghost use Rattle.drawn_devices.specs.Drawn.{AreDrawnDevices};
ghost use Rattle.drawn_devices.specs.DrawnChannels.{AreFirstChannels, IsChannelOf};

use crate::channels::channel_groups;
use crate::cut_cell::{CutCell, cut_cell};
use crate::drawn::{DeviceChannel, DrawnDevices};
use crate::names::names_of;
use crate::same_layers::{add_same_channels, earlier_alike};
use crate::terminals::terminals_of;
use bumpalo::Bump;
use cell_hierarchy::Flat;
use or_geom::{Items, Memory, Point, Rect};
use std::alloc::Global;
use tech_rules::{Device, Tech};

/// The lower left corner of the first box.
fn first_corner(boxes: &[Rect]) -> Point
    requires { 0 < length boxes.now }
    ensures { (first : Rect) → slice_get boxes.now 0 ≡ Some first → result ≡ low_cell first }
{
    let first = boxes[0];
    Point {
        x: first.x1,
        y: first.y1,
    }
}

/// The channel of a device that has these boxes.
fn channel_of(
    alloc: Global,
    cell: &CutCell,
    index: u16,
    device: &Device,
    boxes: &[Rect],
) -> Result<DeviceChannel, Memory>
    requires cut { IsCutCell cell.now }
    requires near { AreReachable cell.now.shapes.now }
    requires device { slice_get cell.now.tech.now.devices index ≡ Some device.now }
    requires boxes { AreChannelBoxes cell.now.shapes.now device.now boxes.now }
    ensures { IfOk result (IsChannelOf cell.now index boxes.now) }
{
    let least = first_corner(boxes);
    Ok(DeviceChannel {
        device: index,
        least,
        terminals: terminals_of(alloc, cell, device, least, boxes)?,
    })
}

/// Adds the channels of one device, found from the shapes on its layers.
fn add_own_channels(
    alloc: Global,
    cell: &CutCell,
    index: u16,
    out: &mut Items<DeviceChannel>,
) -> Result<(), Memory>
    requires cut { IsCutCell cell.now }
    requires near { AreReachable cell.now.shapes.now }
    requires inside { index < length cell.now.tech.now.devices }
    requires first { AreFirstChannels cell.now index out.old }
    ensures { OnOk result (AreFirstChannels cell.now (index + 1) out.new) }
{
    let device = &cell.tech.devices.as_slice()[index as usize];
    let groups = channel_groups(alloc, device, cell.shapes)?;
    for boxes in &groups {
        out.push(channel_of(alloc, cell, index, device, boxes.as_slice())?)?;
    }
    Ok(())
}

/// Adds the channels of one device, copied from an earlier device with the same layers, or else found.
fn add_channels(
    alloc: Global,
    cell: &CutCell,
    index: u16,
    out: &mut Items<DeviceChannel>,
) -> Result<(), Memory>
    requires cut { IsCutCell cell.now }
    requires near { AreReachable cell.now.shapes.now }
    requires inside { index < length cell.now.tech.now.devices }
    requires first { AreFirstChannels cell.now index out.old }
    ensures { OnOk result (AreFirstChannels cell.now (index + 1) out.new) }
{
    match earlier_alike(cell.tech.devices.as_slice(), index) {
        Some(earlier) => add_same_channels(cell, earlier, index, out),
        None => add_own_channels(alloc, cell, index, out),
    }
}

/// The channels of all devices.
fn channels_of(alloc: Global, cell: &CutCell) -> Result<Items<DeviceChannel>, Memory>
    requires cut { IsCutCell cell.now }
    requires near { AreReachable cell.now.shapes.now }
    requires few { length cell.now.tech.now.devices ≤ 65535 }
    ensures { IfOk result (AreFirstChannels cell.now (length cell.now.tech.now.devices)) }
{
    let mut channels = Items::new(alloc);
    for index in 0..cell.tech.devices.as_slice().len() as u16 {
        add_channels(alloc, cell, index, &mut channels)?;
    }
    Ok(channels)
}

/// The transistors that a cell draws: the channels of the technology's devices, each with the numbers of its terminals'
/// nets if it is sound, and the names that the cell's own labels give to nets. Nets are those of touching shapes, of
/// which active shapes conduct where no gate of a device lies over them.
///
/// The coordinates of the shapes are within 2^40. Active shapes are cut into boxes by the gates; the memory and the
/// time grow with these boxes, and not with areas.
pub fn drawn_devices(alloc: Global, tech: &Tech, flat: &Flat) -> Result<DrawnDevices, Memory>
    requires near { AreReachable flat.now.shapes.now }
    requires few { length tech.now.devices ≤ 65535 }
    ensures { IfOk result (AreDrawnDevices tech.now flat.now.shapes.now (map plain_label flat.now.labels.now)) }
{
    let bump = Bump::new(alloc);
    let cell = cut_cell(alloc, &bump, tech, flat.shapes)?;
    Ok(DrawnDevices {
        names: names_of(alloc, &cell, flat.labels)?,
        channels: channels_of(alloc, &cell)?,
    })
}
