ghost use Rattle.std.specs.Prelude.{◌≡◌, ◌↔◌, ℕ, List, map, Some, IsTrue, IfOk, MatchOption};
ghost use Rattle.or_geom.specs.Gathering.{SomeHas};
ghost use Rattle.label_binding.specs.LowerCase.{in_lower_case};
ghost use Rattle.net_extractor.specs.Difference.{HasNet, IsLabelOf, IsLabelled};
ghost use Rattle.net_extractor.specs.KeyPlaces.{AreMixed, first_place, label_key, pin_key, place_under};
ghost use Rattle.net_extractor.specs.PinNets.{IsElsewhere, IsPinNet, IsPinNets};
ghost use Rattle.net_extractor.specs.PlainNets.{plain_net};

use crate::key_places::{KeyPlaces, key_places};
use crate::keys::{keys_of, mixed_marks, put_pin_key};
use crate::label::NetLabel;
use netlist::RowPin;
use or_geom::Memory;
use std::alloc::Global;

/// The numbers of a pin's net: in the rows, and in the layout.
#[derive(Clone, Copy)]
pub struct PinNet {
    pub rows: u32,
    pub layout: u32,
    /// Whether a bound label of the pin may be on another net of the layout.
    pub mixed: bool,
}

/// The nets of all pins, or the place of the first that has no bound label.
#[derive(Drop)]
pub enum PinNets {
    Unlabelled(usize),
    All(Vec<PinNet>),
}

/// Whether the text in lower case is the other.
fn is_in_lower_case(text: &[u8], other: &[u8]) -> bool
    ensures { IsTrue result ↔ (in_lower_case text.now ≡ other.now) }
{
    if text.len() != other.len() {
        return false;
    }
    for place in 0..text.len() {
        if text[place].to_ascii_lowercase() != other[place] {
            return false;
        }
    }
    true
}

/// Whether the label has the pin's path and name.
fn is_label_of(pin: &RowPin, entry: &NetLabel) -> bool
    ensures { IsTrue result ↔ IsLabelOf pin.now (plain_net entry.now) }
{
    if !is_in_lower_case(entry.label.name.as_bytes(), pin.pin.as_bytes()) {
        return false;
    }
    is_in_lower_case(entry.label.path.as_bytes(), pin.path.as_bytes())
}

/// The net of the pin's first bound label.
fn first_net(labels: &[NetLabel], pin: &RowPin) -> Option<u32>
    ensures { MatchOption result (IsLabelled (map plain_net labels.now) pin.now → ⊥)
        (HasNet (map plain_net labels.now) pin.now) }
{
    for label in labels {
        let Some(net) = label.net else {
            continue;
        };
        if is_label_of(pin, label) {
            return Some(net);
        }
    }
    None
}

/// Whether a bound label of the pin is on another net than this one.
pub fn is_elsewhere(labels: &[NetLabel], pin: &RowPin, net: u32) -> bool
    ensures { IsTrue result ↔ SomeHas (IsElsewhere pin.now net) (map plain_net labels.now) }
{
    for label in labels {
        let Some(other) = label.net else {
            continue;
        };
        if other == net {
            continue;
        }
        if is_label_of(pin, label) {
            return true;
        }
    }
    false
}

/// The net of a pin by its labels one after another, None where it has no bound label.
fn searched_net(labels: &[NetLabel], pin: &RowPin) -> Option<PinNet>
    ensures { MatchOption result (IsLabelled (map plain_net labels.now) pin.now → ⊥)
        (IsPinNet (map plain_net labels.now) pin.now) }
{
    let Some(layout) = first_net(labels, pin) else {
        return None;
    };
    Some(PinNet {
        rows: pin.net,
        layout,
        mixed: true,
    })
}

/// The net of a pin whose first label is likely the one at the place.
fn net_by(labels: &[NetLabel], mixed: &[bool], pin: &RowPin, place: usize) -> Option<PinNet>
    requires mixed { AreMixed (map plain_net labels.now) mixed.now }
    requires first { first_place (map label_key (map plain_net labels.now)) (pin_key pin.now) ≡ Some place }
    ensures { MatchOption result (IsLabelled (map plain_net labels.now) pin.now → ⊥)
        (IsPinNet (map plain_net labels.now) pin.now) }
{
    if labels.len() <= place {
        return searched_net(labels, pin);
    }
    let Some(layout) = labels[place].net else {
        return searched_net(labels, pin);
    };
    if !is_label_of(pin, &labels[place]) {
        return searched_net(labels, pin);
    }
    Some(PinNet {
        rows: pin.net,
        layout,
        mixed: mixed[place],
    })
}

/// The net of a pin, None where it has no bound label. Its key is written over what is in `key`.
fn pin_net(
    key: &mut Vec<u8>,
    labels: &[NetLabel],
    table: &KeyPlaces,
    mixed: &[bool],
    pin: &RowPin,
) -> Result<Option<PinNet>, Memory>
    requires table { (key : List ℕ) → place_under table.now key
        ≡ first_place (map label_key (map plain_net labels.now)) key }
    requires mixed { AreMixed (map plain_net labels.now) mixed.now }
    ensures { IfOk result (λ net. MatchOption net (IsLabelled (map plain_net labels.now) pin.now → ⊥)
        (IsPinNet (map plain_net labels.now) pin.now)) }
{
    put_pin_key(key, pin)?;
    let Some(place) = table.find(key) else {
        return Ok(None);
    };
    Ok(net_by(labels, mixed, pin, place))
}

/// The nets of the pins, each in the layout that of a bound label, over a table of the labels' keys.
fn nets_of_pins(
    alloc: Global,
    labels: &[NetLabel],
    table: &KeyPlaces,
    mixed: &[bool],
    pins: &[RowPin],
) -> Result<PinNets, Memory>
    requires table { (key : List ℕ) → place_under table.now key
        ≡ first_place (map label_key (map plain_net labels.now)) key }
    requires mixed { AreMixed (map plain_net labels.now) mixed.now }
    ensures { IfOk result (IsPinNets (map plain_net labels.now) pins.now) }
{
    let mut key = Vec::new(alloc);
    let mut nets = Vec::with_capacity(alloc, pins.len())?;
    for place in 0..pins.len() {
        let found = pin_net(&mut key, labels, table, mixed, &pins[place])?;
        let Some(net) = found else {
            return Ok(PinNets::Unlabelled(place));
        };
        nets.push(net)?;
    }
    Ok(PinNets::All(nets))
}

/// The nets of the pins, each in the layout that of a bound label.
pub fn pin_nets(alloc: Global, labels: &[NetLabel], pins: &[RowPin]) -> Result<PinNets, Memory>
    ensures { IfOk result (IsPinNets (map plain_net labels.now) pins.now) }
{
    let keys = keys_of(alloc, labels)?;
    let table = key_places(alloc, &keys)?;
    let mixed = mixed_marks(alloc, labels, &keys, &table)?;
    nets_of_pins(alloc, labels, &table, &mixed, pins)
}
