ghost use Rattle.std.specs.Prelude.{ℕ, Contains, IfOk, MatchOption};
ghost use Rattle.or_geom.specs.Distance.{IsReachable};
ghost use Rattle.or_geom.specs.Reachable.{AreReachable};
ghost use Rattle.drawn_devices.specs.ChannelBoxes.{HaveCellsOf};
ghost use Rattle.drawn_devices.specs.Channels.{IsChannelCell};
ghost use Rattle.drawn_devices.specs.CutCell.{IsCutCell};
ghost use Rattle.drawn_devices.specs.Diffusion.{IsActive};
ghost use Rattle.drawn_devices.specs.Drawn.{TerminalsAre};
ghost use Rattle.drawn_devices.specs.Ends.{AreEnds, HaveNoEnds};
ghost use Rattle.drawn_devices.specs.Nets.{Member};
ghost use Rattle.drawn_devices.specs.Numbers.{AreNumbersIn};

use crate::cut_cell::CutCell;
use crate::diffusion::is_active;
use crate::drawn::{Flow, Terminals};
use crate::gates::{net_of_all, net_over};
use crate::sides::{flow_of, strip};
use box_pieces::box_of;
use or_geom::{Memory, Point, Rect};
use std::alloc::Global;
use tech_rules::Device;

/// The terminals with this gate and the nets on both sides of the flow, if diffusion lies there.
fn with_ends(cell: &CutCell, layer: u16, area: Rect, flow: Flow, gate: u32) -> Option<Terminals>
    requires cut { IsCutCell cell.now }
    requires active { IsActive cell.now.tech.now.devices layer }
    requires near { IsReachable area }
    ensures { MatchOption result (HaveNoEnds cell.now layer area flow) (AreEnds cell.now layer area flow gate) }
{
    let nets = cell.nets.as_slice();
    let before = strip(flow.first_side(), area);
    let Some(first) = net_over(&cell.bins, nets, layer, before) else {
        return None;
    };
    let behind = strip(flow.second_side(), area);
    let Some(second) = net_over(&cell.bins, nets, layer, behind) else {
        return None;
    };
    Some(Terminals {
        gate,
        first,
        second,
    })
}

/// The terminals of the channel with this least cell, which has exactly the cells of the boxes, if it is sound.
pub fn terminals_of(
    alloc: Global,
    cell: &CutCell,
    device: &Device,
    _least: Point,
    boxes: &[Rect],
) -> Result<Option<Terminals>, Memory>
    requires cut { IsCutCell cell.now }
    requires near { AreReachable cell.now.shapes.now }
    requires device { Contains cell.now.tech.now.devices device.now }
    requires least { IsChannelCell cell.now.shapes.now device.now _least }
    requires boxes { HaveCellsOf cell.now.shapes.now device.now _least boxes.now }
    ensures { IfOk result (λ terminals. (number : Member → ℕ) → AreNumbersIn cell.now number
        → TerminalsAre cell.now.tech.now cell.now.shapes.now number device.now _least terminals) }
{
    let nets = cell.nets.as_slice();
    if is_active(cell.tech.devices.as_slice(), device.gate) {
        return Ok(None);
    }
    let Some(area) = box_of(alloc, boxes)? else {
        return Ok(None);
    };
    let Some(flow) = flow_of(cell, device.active, area) else {
        return Ok(None);
    };
    let Some(gate) = net_of_all(alloc, &cell.bins, nets, device.gate, area)? else {
        return Ok(None);
    };
    Ok(with_ends(cell, device.active, area, flow, gate))
}
