ghost use Rattle.std.specs.Prelude.{◌≡◌, ◌<◌, ◌^◌, length, OnOk};
ghost use Rattle.or_geom.specs.Distance.{IsNear};
ghost use Rattle.or_geom.specs.Adds.{Adds};
ghost use Rattle.or_geom.specs.Gathering.{SomeGives};
ghost use Rattle.tech_rules.specs.Facts.{AreSizes};
ghost use Rattle.channel_router.specs.Channel.{AreOfNets, ArePinsNear};
ghost use Rattle.channel_router.specs.Tracks.{AreTracksBelow, AreForward};
ghost use Rattle.channel_router.specs.Intervals.{AreNearIntervals};
ghost use Rattle.channel_router.specs.Wires.{IsChannelHeight, channel_height};
ghost use Rattle.channel_router.specs.Placed.{IsTrunkBelow, IsOfTopPin, IsOfBottomPin};

use crate::channel::{ChannelPin, Interval};
use or_geom::{Memory, Rect, Shape};
use tech_rules::Wire;
use wire_drawing::via;

/// So many pitches above a space.
pub fn channel_height(wire: &Wire, tracks: u32) -> i64
    requires { AreSizes wire.now }
    ensures value { result ≡ channel_height wire.now tracks }
    ensures room { IsChannelHeight result }
{
    wire.space + i64::from(tracks) * (wire.width + wire.space)
}

/// Adds each net's trunk.
pub fn add_trunks(
    low: i64,
    intervals: &[Interval],
    track: &[u32],
    wire: &Wire,
    shapes: &mut Vec<Shape>,
) -> Result<(), Memory>
    requires sizes { AreSizes wire.now }
    requires near { IsNear low }
    requires near_intervals { AreNearIntervals intervals.now }
    requires forward { AreForward intervals.now }
    requires each { length track.now ≡ length intervals.now }
    ensures { OnOk result (Adds shapes.old.items shapes.new.items
        (IsTrunkBelow low wire.now intervals.now track.now (length intervals.now))) }
{
    for net in 0..intervals.len() {
        let interval = intervals[net];
        let y = low + channel_height(wire, track[net]);
        let rect = Rect {
            x1: interval.left,
            y1: y,
            x2: interval.right + wire.width,
            y2: y + wire.width,
        };
        shapes.push(Shape {
            layer: wire.metals[2],
            rect,
        })?;
    }
    Ok(())
}

/// Adds the branch and the cut of each pin of the top.
pub fn add_top(
    low: i64,
    pins: &[ChannelPin],
    track: &[u32],
    tracks: u32,
    wire: &Wire,
    shapes: &mut Vec<Shape>,
) -> Result<(), Memory>
    requires sizes { AreSizes wire.now }
    requires near { IsNear low }
    requires near_pins { ArePinsNear pins.now }
    requires of_nets { AreOfNets (length track.now) pins.now }
    requires below { AreTracksBelow track.now tracks }
    ensures { OnOk result (Adds shapes.old.items shapes.new.items
        (SomeGives (IsOfTopPin low wire.now track.now tracks) pins.now)) }
{
    let end = low + channel_height(wire, tracks);
    for pin in pins {
        let y = low + channel_height(wire, track[pin.net as usize]);
        let rect = Rect {
            x1: pin.x,
            y1: y,
            x2: pin.x + wire.width,
            y2: end,
        };
        shapes.push(Shape {
            layer: wire.metals[3],
            rect,
        })?;
        shapes.push(via(wire, 2, pin.x, y))?;
    }
    Ok(())
}

/// Adds the branch and the cut of each pin of the bottom.
pub fn add_bottom(
    low: i64,
    pins: &[ChannelPin],
    track: &[u32],
    wire: &Wire,
    shapes: &mut Vec<Shape>,
) -> Result<(), Memory>
    requires sizes { AreSizes wire.now }
    requires near { IsNear low }
    requires near_pins { ArePinsNear pins.now }
    requires of_nets { AreOfNets (length track.now) pins.now }
    ensures { OnOk result (Adds shapes.old.items shapes.new.items
        (SomeGives (IsOfBottomPin low wire.now track.now) pins.now)) }
{
    for pin in pins {
        let y = low + channel_height(wire, track[pin.net as usize]);
        let rect = Rect {
            x1: pin.x,
            y1: low,
            x2: pin.x + wire.width,
            y2: y + wire.width,
        };
        shapes.push(Shape {
            layer: wire.metals[1],
            rect,
        })?;
        shapes.push(via(wire, 1, pin.x, y))?;
    }
    Ok(())
}
