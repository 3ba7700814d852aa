ghost use Rattle.std.specs.Prelude.{◌≡◌, ◌≢◌, ◌++◌, ◌↔◌, ℕ, List, map, IsTrue, IfOk, OnOk, MatchOption};
ghost use Rattle.label_binding.specs.LowerCase.{in_lower_case};
ghost use Rattle.net_extractor.specs.Difference.{IsAbove, IsOnOnePath};
ghost use Rattle.net_extractor.specs.FirstDifference.{AreNoStrangers, IsStrangerAt};
ghost use Rattle.net_extractor.specs.PlainNets.{plain_net};
ghost use Rattle.net_extractor.specs.Strangers.{IsLeafPath};

use crate::label::NetLabel;
use netlist::RowPin;
use or_geom::Memory;
use std::alloc::Global;

/// What stands in the text after this front.
fn rest_after<'a>(front: &[u8], text: &'a [u8]) -> Option<&'a [u8]>
    ensures { MatchOption result ((rest : List ℕ) → text.now ≢ front.now ++ rest) (λ rest. text.now
        ≡ front.now ++ rest.now) }
{
    text.strip_prefix(front)
}

/// Whether the path, in whole names, is a proper prefix of the other.
fn is_above(path: &[u8], other: &[u8]) -> bool
    ensures { IsTrue result ↔ IsAbove path.now other.now }
{
    let Some(rest) = rest_after(path, other) else {
        return false;
    };
    let Some((first, _)) = rest.split_first() else {
        return false;
    };
    *first == b'/'
}

/// Whether the path is the other, a proper prefix of it, or below it.
fn is_along(path: &[u8], other: &[u8]) -> bool
    ensures { IsTrue result ↔ IsOnOnePath path.now other.now }
{
    if path == other {
        return true;
    }
    is_above(path, other) || is_above(other, path)
}

/// Whether the path stands at a leaf instance that has a pin, looking at one pin after another.
fn is_placed_among(path: &[u8], pins: &[RowPin]) -> bool
    ensures { IsTrue result ↔ IsLeafPath pins.now path.now }
{
    for pin in pins {
        let instance = pin.path.as_bytes();
        if instance.is_empty() {
            continue;
        }
        if is_along(path, instance) {
            return true;
        }
    }
    false
}

/// The paths of the pins' instances in order, each with the place of a pin. Of pins that follow one another at one
/// instance the first stands for all.
fn instances_of<'a>(alloc: Global, pins: &'a [RowPin]) -> Result<Vec<(&'a [u8], usize)>, Memory> {
    let mut instances = Vec::new(alloc);
    let mut last: &[u8] = &[];
    for place in 0..pins.len() {
        let path = pins[place].path.as_bytes();
        if path == last {
            continue;
        }
        last = path;
        instances.push((path, place))?;
    }
    instances.sort_unstable();
    Ok(instances)
}

/// The place of a pin whose instance has this path, or else the first path behind it. Nothing is claimed of it: the pin
/// is looked at.
fn likely_pin(instances: &[(&[u8], usize)], path: &[u8]) -> usize {
    let at = match instances.binary_search(&(path, 0)) {
        Ok(at) => at,
        Err(at) => at,
    };
    if at < instances.len() {
        return instances[at].1;
    }
    at
}

/// Whether the path stands at the instance of the pin at the place.
fn stands_at(path: &[u8], pins: &[RowPin], place: usize) -> bool
    ensures { IsTrue result → IsLeafPath pins.now path.now }
{
    if pins.len() <= place {
        return false;
    }
    let instance = pins[place].path.as_bytes();
    if instance.is_empty() {
        return false;
    }
    is_along(path, instance)
}

/// Whether a pin is found by the path, or by a path above it, at whose instance the path stands. The pin at the place
/// `likely` is looked at first, and the pin that the path leads to is left there for the next path.
fn is_found(path: &[u8], pins: &[RowPin], instances: &[(&[u8], usize)], likely: &mut usize) -> bool
    ensures { IsTrue result → IsLeafPath pins.now path.now }
{
    if stands_at(path, pins, *likely) {
        return true;
    }
    *likely = likely_pin(instances, path);
    if stands_at(path, pins, *likely) {
        return true;
    }
    for at in 0..path.len() {
        if path[at] != b'/' {
            continue;
        }
        if stands_at(path, pins, likely_pin(instances, &path[..at])) {
            return true;
        }
    }
    false
}

/// Whether the path stands at a leaf instance that has a pin.
fn is_placed(path: &[u8], pins: &[RowPin], instances: &[(&[u8], usize)], likely: &mut usize) -> bool
    ensures { IsTrue result ↔ IsLeafPath pins.now path.now }
{
    if is_found(path, pins, instances, likely) {
        return true;
    }
    is_placed_among(path, pins)
}

/// Adds the text in lower case.
pub fn add_lowered(bytes: &mut Vec<u8>, text: &[u8]) -> Result<(), Memory>
    ensures { OnOk result (bytes.new.items ≡ bytes.old.items ++ in_lower_case text.now) }
{
    let start = bytes.len();
    bytes.extend_from_slice(text)?;
    bytes[start..].make_ascii_lowercase();
    Ok(())
}

/// Makes the other text this one in lower case.
fn put_lowered(lower: &mut Vec<u8>, text: &[u8]) -> Result<(), Memory>
    ensures { OnOk result (lower.new.items ≡ in_lower_case text.now) }
{
    lower.clear();
    add_lowered(lower, text)
}

/// The place of the first label that stands in an instance, and at no leaf instance that has a pin.
pub fn first_stranger(
    alloc: Global,
    labels: &[NetLabel],
    pins: &[RowPin],
) -> Result<Option<usize>, Memory>
    ensures { IfOk result (λ found. MatchOption found (AreNoStrangers (map plain_net labels.now) pins.now)
        (IsStrangerAt (map plain_net labels.now) pins.now)) }
{
    let instances = instances_of(alloc, pins)?;
    // Labels of one instance mostly follow one another.
    let mut likely = 0;
    let mut lower = Vec::new(alloc);
    for place in 0..labels.len() {
        let path = labels[place].label.path.as_bytes();
        if path.is_empty() {
            continue;
        }
        put_lowered(&mut lower, path)?;
        if !is_placed(&lower, pins, &instances, &mut likely) {
            return Ok(Some(place));
        }
    }
    Ok(None)
}
