ghost use Rattle.std.specs.Prelude.{◌≡◌, ◌↔◌, ◌<◌, length, map, slice_get, Some, IsTrue, IfOk, OnOk, MatchOption};
ghost use Rattle.std.specs.BTreeMap.{get};
ghost use Rattle.std.specs.Ordering.{nat_cmp};
ghost use Rattle.or_geom.specs.Gathering.{SomeHas};
ghost use Rattle.net_extractor.specs.Conflicts.{AgreeBefore, AgreeOn, IsConflict, IsFirstOdd};
ghost use Rattle.net_extractor.specs.Matching.{AreMatched, GoTogether, IsPut};
ghost use Rattle.net_extractor.specs.FirstDifference.{AreRightBefore};
ghost use Rattle.net_extractor.specs.PinNets.{ArePinNets, IsElsewhere, IsPinNet};
ghost use Rattle.net_extractor.specs.PlainNets.{plain_net};

use crate::label::NetLabel;
use crate::pins::{PinNet, is_elsewhere};
use netlist::RowPin;
use or_geom::Memory;
use std::alloc::Global;
use std::collections::BTreeMap;

/// The places of two pins that are on one net in the rows or in the layout alone; or of one pin, twice, that has labels
/// on two nets.
#[derive(Clone, Copy)]
pub enum Conflict {
    Open { first: usize, second: usize },
    Short { first: usize, second: usize },
}

/// Whether two pins are on one net in the layout exactly where they are in the rows.
fn agree(a: PinNet, b: PinNet) -> bool
    ensures { IsTrue result ↔ AgreeOn a b }
{
    if a.rows == b.rows {
        return a.layout == b.layout;
    }
    a.layout != b.layout
}

/// The net of the pin at the place.
fn net_at(nets: &[PinNet], place: usize) -> PinNet
    requires { place < length nets.now }
    ensures { slice_get nets.now place ≡ Some result }
{
    nets[place]
}

/// The place of the first pin before this one that does not agree with it.
fn first_odd(nets: &[PinNet], place: usize) -> Option<usize>
    requires { place < length nets.now }
    ensures { MatchOption result (AgreeBefore nets.now place place) (IsFirstOdd nets.now place) }
{
    let net = nets[place];
    for earlier in 0..place {
        if !agree(nets[earlier], net) {
            return Some(earlier);
        }
    }
    None
}

/// The net that goes with this one.
fn net_in(nets: &BTreeMap<u32, u32>, net: u32) -> Option<u32>
    ensures { result ≡ get nat_cmp nets.now net }
{
    nets.get(&net).copied()
}

/// Whether a pin's nets go with one another, or are both ones that no pin before it has.
fn go_together(layout: Option<u32>, rows: Option<u32>, net: PinNet) -> bool
    ensures { IsTrue result → GoTogether layout rows net }
{
    let Some(layout) = layout else {
        return rows.is_none();
    };
    let Some(rows) = rows else {
        return false;
    };
    layout == net.layout && rows == net.rows
}

/// For each net of the rows the net of the layout that pins have together with it, and the other way round.
#[derive(Drop)]
struct Matching {
    layouts: BTreeMap<u32, u32>,
    rows: BTreeMap<u32, u32>,
}

/// The place of the first pin before this one that does not agree with it. Those before all agree.
fn first_unlike(nets: &[PinNet], place: usize, matching: &Matching) -> Option<usize>
    requires inside { place < length nets.now }
    requires matched { AreMatched nets.now place matching.now }
    ensures { MatchOption result (AgreeBefore nets.now place place) (IsFirstOdd nets.now place) }
{
    let net = net_at(nets, place);
    let layout = net_in(&matching.layouts, net.rows);
    let rows = net_in(&matching.rows, net.layout);
    if go_together(layout, rows, net) {
        return None;
    }
    first_odd(nets, place)
}

/// Keeps a pin's nets.
fn put(matching: &mut Matching, net: PinNet) -> Result<(), Memory>
    ensures { OnOk result (IsPut net matching.old matching.new) }
{
    matching.layouts.insert(net.rows, net.layout)?;
    matching.rows.insert(net.layout, net.rows)?;
    Ok(())
}

/// Whether a bound label of the pin is on another net than the pin's.
fn is_torn(labels: &[NetLabel], pin: &RowPin, net: PinNet) -> bool
    requires { IsPinNet (map plain_net labels.now) pin.now net }
    ensures { IsTrue result ↔ SomeHas (IsElsewhere pin.now net.layout) (map plain_net labels.now) }
{
    if !net.mixed {
        return false;
    }
    is_elsewhere(labels, pin, net.layout)
}

/// The first pin that has labels on two nets or does not agree with an earlier pin.
pub fn first_conflict(
    alloc: Global,
    labels: &[NetLabel],
    pins: &[RowPin],
    nets: &[PinNet],
) -> Result<Option<Conflict>, Memory>
    requires { ArePinNets (map plain_net labels.now) pins.now nets.now }
    ensures { IfOk result (λ found. MatchOption found
        (AreRightBefore (map plain_net labels.now) pins.now (length pins.now))
        (IsConflict (map plain_net labels.now) pins.now)) }
{
    let mut matching = Matching {
        layouts: BTreeMap::new(alloc),
        rows: BTreeMap::new(alloc),
    };
    for place in 0..nets.len() {
        let net = net_at(nets, place);
        if is_torn(labels, &pins[place], net) {
            return Ok(Some(Conflict::Open {
                first: place,
                second: place,
            }));
        }
        let Some(earlier) = first_unlike(nets, place, &matching) else {
            put(&mut matching, net)?;
            continue;
        };
        let other = net_at(nets, earlier);
        if other.rows == net.rows {
            return Ok(Some(Conflict::Open {
                first: earlier,
                second: place,
            }));
        }
        return Ok(Some(Conflict::Short {
            first: earlier,
            second: place,
        }));
    }
    Ok(None)
}
