ghost use Rattle.std.specs.Prelude.{◌≡◌, ◌<◌, ◌≤◌, [], pos, length, map, slice_get, slice_index_or, Some, IfOk};
ghost use Rattle.tech_rules.specs.Facts.{AreSizes};
ghost use Rattle.channel_router.specs.Wires.{track_y};
ghost use Rattle.sram_netlist.specs.Numbers.{ArePlanNumbers};
ghost use Rattle.sram_plan.specs.PlanNumbers.{numbers_of, organization};
ghost use Rattle.floorplan.specs.FloorplanNumbers.{IsUpTo};
ghost use Rattle.sram_macro.specs.Signals.{signal_names, AreOnTracks, signals_on_tracks, signal_label, supply_label};
ghost use Rattle.sram_macro.specs.Signals.{macro_labels};

use crate::extents::Extents;
use cell_builder::PlacedLabel;
use floorplan::pitches;
use or_geom::{Items, Memory, Name, Point};
use port_lists::NameList;
use sram_plan::{Plan, SignalPin};
use std::alloc::Global;
use tech_rules::Wire;

/// The names of the macro's signal ports, in order.
pub fn signal_names(alloc: Global, plan: &Plan) -> Result<Items<Name>, Memory>
    requires { ArePlanNumbers (numbers_of plan.now) }
    ensures { IfOk result (λ names. names ≡ signal_names (organization plan.now)) }
{
    let mut names = NameList::new(alloc);
    names.add_macro_inputs(plan)?;
    names.add_indexed(b"dout0", plan.word_size)?;
    Ok(names.into_items())
}

/// The lower side of a track of a channel that begins at `low`.
fn track_y(low: u32, wire: &Wire, track: u32) -> i64
    requires sizes { AreSizes wire.now }
    requires low { low ≤ 65536 }
    requires few { track ≤ 4096 }
    ensures is { result ≡ track_y (pos low) wire.now track }
    ensures near { IsUpTo 1073741824 result }
{
    i64::from(low) + wire.space + pitches(track, wire) as i64
}

/// The track of a net.
fn track_at(track: &[u32], number: usize) -> u32
    requires there { number < length track.now }
    ensures is { result ≡ slice_index_or track.now number 0 }
    ensures there { slice_get track.now number ≡ Some result }
{
    track[number]
}

/// A copy of a name of the list.
fn name_at(alloc: Global, names: &[Name], number: usize) -> Result<Name, Memory>
    requires there { number < length names.now }
    ensures { IfOk result (λ name. name ≡ slice_index_or names.now number []) }
{
    Ok(Name::from_bytes(alloc, names[number].as_bytes())?)
}

/// The signal ports of these names, each on its track of the main channel, which begins at `low`. So many of them go
/// in.
pub fn signal_pins(
    alloc: Global,
    names: &[Name],
    inputs: usize,
    low: u32,
    track: &[u32],
    wire: &Wire,
) -> Result<Vec<SignalPin>, Memory>
    requires sizes { AreSizes wire.now }
    requires low { low ≤ 65536 }
    requires tracks { AreOnTracks names.now track.now }
    ensures { IfOk result (λ pins. pins.items ≡ signals_on_tracks wire.now (pos low) inputs names.now track.now) }
{
    let mut pins = Vec::new(alloc);
    for number in 0..names.len() {
        pins.push(SignalPin {
            name: name_at(alloc, names, number)?,
            y: track_y(low, wire, track_at(track, number)),
            output: number >= inputs,
            clock: number == 0,
        })?;
    }
    Ok(pins)
}

/// The label of a signal, at the left end of its trunk.
fn signal_label(alloc: Global, wire: &Wire, pin: &SignalPin) -> Result<PlacedLabel, Memory>
    requires { 2 < length wire.now.metals }
    ensures { IfOk result (λ label. label ≡ signal_label wire.now pin.now) }
{
    Ok(PlacedLabel {
        layer: wire.metals[2],
        at: Point { x: 0, y: pin.y },
        text: Name::from_bytes(alloc, pin.name.as_bytes())?,
    })
}

/// The label of a supply, at the lower end of its trunk.
fn supply_label(alloc: Global, wire: &Wire, x: i64, name: &[u8]) -> Result<PlacedLabel, Memory>
    requires { 1 < length wire.now.metals }
    ensures { IfOk result (λ label. label ≡ supply_label wire.now x name.now) }
{
    Ok(PlacedLabel {
        layer: wire.metals[1],
        at: Point { x, y: 0 },
        text: Name::from_bytes(alloc, name)?,
    })
}

/// The labels of the signals.
fn signal_labels(alloc: Global, wire: &Wire, pins: &[SignalPin]) -> Result<Vec<PlacedLabel>, Memory>
    requires { 2 < length wire.now.metals }
    ensures { IfOk result (λ labels. labels.items ≡ map (signal_label wire.now) pins.now) }
{
    let mut labels = Vec::new(alloc);
    let mut rest = pins;
    while let Some((pin, others)) = rest.split_first() {
        labels.push(signal_label(alloc, wire, pin)?)?;
        rest = others;
    }
    Ok(labels)
}

/// The labels of the macro: those of its signals, of vdd and of gnd.
pub fn macro_labels(
    alloc: Global,
    wire: &Wire,
    ends: &Extents,
    pins: &[SignalPin],
) -> Result<Vec<PlacedLabel>, Memory>
    requires { 2 < length wire.now.metals }
    ensures { IfOk result (λ labels. labels.items ≡ macro_labels wire.now ends.now pins.now) }
{
    let mut labels = signal_labels(alloc, wire, pins)?;
    labels.push(supply_label(alloc, wire, ends.power_x, b"vdd")?)?;
    labels.push(supply_label(alloc, wire, ends.ground_x, b"gnd")?)?;
    Ok(labels)
}
