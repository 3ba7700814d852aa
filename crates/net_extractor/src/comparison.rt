ghost use Rattle.std.specs.Prelude.{◌≡◌, ◌↔◌, ◌<◌, length, map, slice_get, Some, None, IfOk, IfSome, MatchOption};
ghost use Rattle.net_extractor.specs.Conflicts.{AreConflictPins, IsDifferenceOf};
ghost use Rattle.net_extractor.specs.Difference.{AreAlike};
ghost use Rattle.net_extractor.specs.FirstDifference.{AreNoStrangers, IsFirstDifference, IsStrangerAt};
ghost use Rattle.net_extractor.specs.FirstDifference.{name_of_label, name_of_pin};
ghost use Rattle.net_extractor.specs.PinNets.{IsPinNets};
ghost use Rattle.net_extractor.specs.PlainNetLabel.{PlainNetLabel};
ghost use Rattle.net_extractor.specs.PlainNets.{plain_net};

use crate::conflicts::{Conflict, first_conflict};
use crate::difference::{NetDiff, PinName};
use crate::label::NetLabel;
use crate::pins::PinNets;
use netlist::RowPin;
use or_geom::{Memory, Name};
use std::alloc::Global;

/// The pin's name.
fn pin_name(alloc: Global, pin: &RowPin) -> Result<PinName, Memory>
    ensures { IfOk result (λ name. name ≡ name_of_pin pin.now) }
{
    Ok(PinName {
        path: Name::from_bytes(alloc, pin.path.as_bytes())?,
        pin: Name::from_bytes(alloc, pin.pin.as_bytes())?,
    })
}

/// The name of the label at the place, as it stands.
fn label_name(alloc: Global, labels: &[NetLabel], place: usize) -> Result<PinName, Memory>
    requires { place < length labels.now }
    ensures { IfOk result (λ name. (label : PlainNetLabel) → slice_get (map plain_net labels.now) place
        ≡ Some label → name ≡ name_of_label label) }
{
    let label = labels[place].label;
    Ok(PinName {
        path: Name::from_bytes(alloc, label.path.as_bytes())?,
        pin: Name::from_bytes(alloc, label.name.as_bytes())?,
    })
}

/// The conflict with the names of its pins.
fn named(alloc: Global, pins: &[RowPin], conflict: Conflict) -> Result<NetDiff, Memory>
    requires { AreConflictPins pins.now conflict }
    ensures { IfOk result (IsDifferenceOf pins.now conflict) }
{
    match conflict {
        Conflict::Open { first, second } => Ok(NetDiff::Open {
            first: pin_name(alloc, &pins[first])?,
            second: pin_name(alloc, &pins[second])?,
        }),
        Conflict::Short { first, second } => Ok(NetDiff::Short {
            first: pin_name(alloc, &pins[first])?,
            second: pin_name(alloc, &pins[second])?,
        }),
    }
}

/// The first difference of the labels of a layout and the pins of a netlist, or None exactly where there is none; the
/// nets of the pins and the first stranger are known. First comes the first pin without a bound label, then the first
/// stranger; then pin by pin what is open or short.
pub fn first_difference(
    alloc: Global,
    labels: &[NetLabel],
    pins: &[RowPin],
    nets: PinNets,
    stranger: Option<usize>,
) -> Result<Option<NetDiff>, Memory>
    requires nets { IsPinNets (map plain_net labels.now) pins.now nets }
    requires stranger { MatchOption stranger (AreNoStrangers (map plain_net labels.now) pins.now)
        (IsStrangerAt (map plain_net labels.now) pins.now) }
    ensures none { IfOk result (λ found. (found ≡ None) ↔ AreAlike (map plain_net labels.now) pins.now) }
    ensures first { IfOk result (λ found. IfSome found (IsFirstDifference (map plain_net labels.now) pins.now)) }
{
    let nets = match nets {
        PinNets::Unlabelled(place) => {
            let pin = pin_name(alloc, &pins[place])?;
            return Ok(Some(NetDiff::Unlabelled { pin }));
        }
        PinNets::All(nets) => nets,
    };
    if let Some(place) = stranger {
        let pin = label_name(alloc, labels, place)?;
        return Ok(Some(NetDiff::Stranger { pin }));
    }
    let conflict = first_conflict(alloc, labels, pins, &nets)?;
    let Some(conflict) = conflict else {
        return Ok(None);
    };
    let difference = named(alloc, pins, conflict)?;
    Ok(Some(difference))
}
