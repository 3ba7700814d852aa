ghost use Rattle.std.specs.Prelude.{◌≡◌, ◌≤◌, ℕ, List, length, IfOk, IfErr};
ghost use Rattle.tech_rules.specs.Facts.{AreSizes};
ghost use Rattle.wire_drawing.specs.Drawing.{pitch};
ghost use Rattle.channel_router.specs.declared.channel.Interval.{Interval};
ghost use Rattle.channel_router.specs.Apart.{AreChannelNets, AreSevenLayers};
ghost use Rattle.channel_router.specs.Channel.{IsChannel};
ghost use Rattle.channel_router.specs.Density.{IsDensity};
ghost use Rattle.channel_router.specs.Intervals.{AreIntervals};
ghost use Rattle.channel_router.specs.Tracks.{AreTracksBelow, IsAssignment};
ghost use Rattle.channel_router.specs.Wires.{AreWires};
ghost use Rattle.channel_router.specs.Routed.{HasClosePins, IsRouted, IsRouteFault};

use crate::assign::lowest_tracks;
use crate::channel::{Channel, Interval, Routed};
use crate::close::refuse_close_pins;
use crate::intervals::intervals_of;
use crate::wires::{add_bottom, add_top, add_trunks, channel_height};
use or_geom::{Items, Memory, Shape};
use std::alloc::Global;
use tech_rules::Wire;
use wire_drawing::RouteFault;

/// Routes a channel. A net's interval runs from its least to its greatest x over pins and exits. Nets are taken by left
/// end and then by number, and each gets the lowest track whose last interval ends at least a pitch before. On its
/// track a net has a trunk on the third metal; each pin has a branch, on the fourth metal up to the channel's upper end
/// or on the second down to the lower, and a cut between branch and trunk. Pins of one side that are nearer to each
/// other than the pitch are refused. No assignment of the nets to tracks has fewer tracks. Where cuts join the wires'
/// metals alone, wires of different nets don't touch, and each net is one net.
pub fn route(alloc: Global, ch: &Channel, wire: &Wire) -> Result<Routed, RouteFault>
    requires sizes { AreSizes wire.now }
    requires layers { AreSevenLayers wire.now }
    requires channel { IsChannel ch.now }
    ensures routed { IfOk result (λ r. (intervals : List Interval) × IsRouted ch.now wire.now intervals r) }
    ensures dense { IfOk result (λ r. (intervals : List Interval) → AreIntervals ch.now intervals
        → IsDensity (pitch wire.now) intervals r.tracks) }
    ensures least { IfOk result (λ r. (intervals : List Interval) (track : List ℕ) (n : ℕ)
        → AreIntervals ch.now intervals → IsAssignment (pitch wire.now) intervals track → AreTracksBelow track n
        → r.tracks ≤ n) }
    ensures nets { IfOk result (λ r. (intervals : List Interval) → AreIntervals ch.now intervals
        → AreChannelNets ch.now wire.now intervals r.track r.tracks r.shapes) }
    ensures apart { IfOk result (λ _. HasClosePins ch.now wire.now → ⊥) }
    ensures fault { IfErr result (IsRouteFault ch.now wire.now) }
{
    refuse_close_pins(alloc, ch, wire)?;
    let intervals = intervals_of(alloc, ch)?;
    let (track, tracks) = lowest_tracks(alloc, &intervals, wire.width + wire.space)?;
    let shapes = wires_of(alloc, ch, wire, &intervals, &track, tracks)?;
    Ok(Routed {
        shapes: Items::from_vec(shapes),
        track: Items::from_vec(track),
        tracks,
        height: channel_height(wire, tracks),
    })
}

/// The shapes of all nets on their tracks.
fn wires_of(
    alloc: Global,
    ch: &Channel,
    wire: &Wire,
    intervals: &[Interval],
    track: &[u32],
    tracks: u32,
) -> Result<Vec<Shape>, Memory>
    requires sizes { AreSizes wire.now }
    requires channel { IsChannel ch.now }
    requires intervals { AreIntervals ch.now intervals.now }
    requires each { length track.now ≡ length intervals.now }
    requires below { AreTracksBelow track.now tracks }
    ensures { IfOk result (λ shapes. AreWires ch.now wire.now intervals.now track.now tracks shapes.items) }
{
    let mut shapes = Vec::new(alloc);
    add_trunks(ch.low, intervals, track, wire, &mut shapes)?;
    add_top(ch.low, ch.top.as_slice(), track, tracks, wire, &mut shapes)?;
    add_bottom(ch.low, ch.bottom.as_slice(), track, wire, &mut shapes)?;
    Ok(shapes)
}
