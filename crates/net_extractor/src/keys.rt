ghost use Rattle.std.specs.Prelude.{◌≡◌, ◌++◌, ◌<◌, ℕ, List, length, map, IfOk, OnOk, IsTrue};
ghost use Rattle.net_extractor.specs.KeyPlaces.{AreMixed, IsFirstFor, IsMixedAt, IsOnNetAt, KeepsMarks, first_place};
ghost use Rattle.net_extractor.specs.KeyPlaces.{label_key, pin_key, place_under};
ghost use Rattle.net_extractor.specs.PlainNets.{plain_net};

use crate::key_places::KeyPlaces;
use crate::key_texts::KeyTexts;
use crate::label::NetLabel;
use crate::strangers::add_lowered;
use netlist::RowPin;
use or_geom::Memory;
use std::alloc::Global;

/// Makes the text the key of a pin: its path and its name. The byte between them stands in neither.
pub fn put_pin_key(key: &mut Vec<u8>, pin: &RowPin) -> Result<(), Memory>
    ensures { OnOk result (key.new.items ≡ pin_key pin.now) }
{
    key.clear();
    key.extend_from_slice(pin.path.as_bytes())?;
    key.push(0)?;
    key.extend_from_slice(pin.pin.as_bytes())?;
    Ok(())
}

/// Adds the key of a label: that of its pin where it is bound, or one that no pin has.
fn add_label_key(bytes: &mut Vec<u8>, entry: &NetLabel) -> Result<(), Memory>
    ensures { OnOk result (bytes.new.items ≡ bytes.old.items ++ label_key (plain_net entry.now)) }
{
    let Some(_) = entry.net else {
        return Ok(());
    };
    add_lowered(bytes, entry.label.path.as_bytes())?;
    bytes.push(0)?;
    add_lowered(bytes, entry.label.name.as_bytes())
}

/// How many bytes the keys of the labels take. Nothing is claimed of it: it is the room that is asked for.
fn room_for(labels: &[NetLabel]) -> usize {
    let mut room: usize = 0;
    for entry in labels {
        if entry.net.is_none() {
            continue;
        }
        let label = entry.label;
        let key = label.path.len().saturating_add(label.name.len());
        room = room.saturating_add(key).saturating_add(1);
    }
    room
}

/// The keys of the labels.
pub fn keys_of(alloc: Global, labels: &[NetLabel]) -> Result<KeyTexts, Memory>
    ensures { IfOk result (λ keys. keys ≡ map label_key (map plain_net labels.now)) }
{
    let mut bytes = Vec::with_capacity(alloc, room_for(labels))?;
    let mut ends = Vec::with_capacity(alloc, labels.len())?;
    for label in labels {
        add_label_key(&mut bytes, label)?;
        ends.push(bytes.len())?;
    }
    Ok(KeyTexts::from_parts(bytes, ends))
}

/// Whether the label at the place, if there is one, is on this net.
fn is_on(labels: &[NetLabel], place: usize, net: u32) -> bool
    ensures { IsTrue result → IsOnNetAt (map plain_net labels.now) place net }
{
    let Some(label) = labels.get(place) else {
        return true;
    };
    let Some(other) = label.net else {
        return false;
    };
    other == net
}

/// Marks the first label with some key, if the label at the place has this key and is on another net.
fn mark_mixed(labels: &[NetLabel], place: usize, first: Option<usize>, marks: &mut [bool])
    requires inside { place < length labels.now }
    requires sized { length marks.old ≡ length labels.now }
    requires first { IsFirstFor (map plain_net labels.now) place first }
    ensures kept { KeepsMarks marks.old marks.new }
    ensures right { IsMixedAt (map plain_net labels.now) marks.new place }
{
    let Some(net) = labels[place].net else {
        return;
    };
    let Some(first) = first else {
        return;
    };
    if is_on(labels, first, net) {
        return;
    }
    if first < marks.len() {
        marks[first] = true;
    }
}

/// A mark for each label: the first one with some key has one, unless all bound labels with the key are on its net.
pub fn mixed_marks(
    alloc: Global,
    labels: &[NetLabel],
    keys: &KeyTexts,
    table: &KeyPlaces,
) -> Result<Vec<bool>, Memory>
    requires keys { keys.now ≡ map label_key (map plain_net labels.now) }
    requires table { (key : List ℕ) → place_under table.now key ≡ first_place keys.now key }
    ensures { IfOk result (λ marks. AreMixed (map plain_net labels.now) marks.items) }
{
    let mut marks = vec![in alloc; false; labels.len()]?;
    for place in 0..labels.len() {
        let first = table.find(keys.get(place));
        mark_mixed(labels, place, first, &mut marks);
    }
    Ok(marks)
}
