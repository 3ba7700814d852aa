ghost use Rattle.std.specs.Prelude.{IfOk};
ghost use Rattle.drawn_devices.specs.ChannelBoxes.{AreChannelGroups, AreChannelShapes, HaveChannelCells};

use crate::boxes::{add_boxes_on, add_shapes};
use crate::connections::alone_on;
use crate::cut_cell::bins_of;
use crate::groups::grouped;
use box_pieces::split;
use bumpalo::Bump;
use net_extractor::shape_nets;
use or_geom::{Items, Memory, Rect, Shape, sort_distinct};
use std::alloc::Global;
use tech_rules::Device;

/// Boxes that have exactly the channel cells of a device.
fn channel_boxes(alloc: Global, device: &Device, shapes: &[Shape]) -> Result<Vec<Rect>, Memory>
    ensures { IfOk result (λ boxes. HaveChannelCells shapes.now device.now boxes.items) }
{
    let mut active = Vec::new(alloc);
    add_boxes_on(shapes, device.active, &mut active)?;
    let mut gates = Vec::new(alloc);
    add_boxes_on(shapes, device.gate, &mut gates)?;
    let mut by = Vec::new(alloc);
    add_boxes_on(shapes, device.by, &mut by)?;
    let crossings = split(alloc, &active, &gates)?.inside;
    Ok(split(alloc, &crossings, &by)?.inside)
}

/// They as shapes on one layer, in order and once.
fn channel_shapes(alloc: Global, device: &Device, shapes: &[Shape]) -> Result<Vec<Shape>, Memory>
    ensures { IfOk result (λ list. AreChannelShapes shapes.now device.now list.items) }
{
    let boxes = channel_boxes(alloc, device, shapes)?;
    let mut list = Vec::new(alloc);
    add_shapes(0, &boxes, &mut list)?;
    sort_distinct(&mut list);
    Ok(list)
}

/// The boxes of each channel of a device, the channels in the order of their least cells. The first box of each begins
/// at its channel's least cell.
pub fn channel_groups(
    alloc: Global,
    device: &Device,
    shapes: &[Shape],
) -> Result<Vec<Items<Rect>>, Memory>
    ensures { IfOk result (λ groups. AreChannelGroups shapes.now device.now groups.items) }
{
    let list = channel_shapes(alloc, device, shapes)?;
    let bump = Bump::new(alloc);
    let bins = bins_of(alloc, &bump, &list)?;
    let mut connections = Vec::new(alloc);
    connections.push(alone_on(alloc, 0)?)?;
    let nets = shape_nets(alloc, &connections, &bins)?;
    let groups = grouped(alloc, &list, nets.as_slice())?;
    Ok(groups)
}
