ghost use Rattle.std.specs.Prelude.{◌≡◌, ◌↔◌, map, None, IfOk, IfSome, MatchOption};
ghost use Rattle.net_extractor.specs.Difference.{AreAlike};
ghost use Rattle.net_extractor.specs.FirstDifference.{AreNoStrangers, IsFirstDifference, IsStrangerAt};
ghost use Rattle.net_extractor.specs.PinNets.{IsPinNets};
ghost use Rattle.net_extractor.specs.PlainNets.{plain_net};

use net_extractor::{NetDiff, NetLabel, Nets, PinNets, first_difference, first_stranger, pin_nets};
use netlist::{RowPin, Rows};
use or_geom::Memory;
use std::alloc::Global;
use std::thread::Threads;
use worker_join::try_join_by;

/// The nets of the pins, and the place of the first label that is a stranger.
fn pins_and_stranger<R: Threads>(
    rt: &R,
    alloc: Global,
    labels: &[NetLabel],
    pins: &[RowPin],
    workers: u8,
) -> Result<(PinNets, Option<usize>), Memory>
    ensures pins { IfOk result (λ found. IsPinNets (map plain_net labels.now) pins.now found.0) }
    ensures stranger { IfOk result (λ found. MatchOption found.1 (AreNoStrangers (map plain_net labels.now) pins.now)
        (IsStrangerAt (map plain_net labels.now) pins.now)) }
{
    let nets = || -> Result<PinNets, Memory>
        ensures { IfOk result (IsPinNets (map plain_net labels.entry.now) pins.entry.now) }
    { pin_nets(alloc, labels, pins) };
    let stranger = || -> Result<Option<usize>, Memory>
        ensures { IfOk result (λ found. MatchOption found
            (AreNoStrangers (map plain_net labels.entry.now) pins.entry.now)
            (IsStrangerAt (map plain_net labels.entry.now) pins.entry.now)) }
    { first_stranger(alloc, labels, pins) };
    try_join_by(rt, workers, nets, stranger)
}

/// The first difference of the labels of a layout and the rows of a netlist, or None exactly where there is none. First
/// comes the first pin without a bound label, then the first stranger; then pin by pin what is open or short. With more
/// than one worker the nets of pins are looked up while strangers are looked for.
pub fn compare_by<R: Threads>(
    rt: &R,
    alloc: Global,
    nets: &Nets,
    rows: &Rows,
    workers: u8,
) -> Result<Option<NetDiff>, Memory>
    ensures none { IfOk result (λ found. (found ≡ None) ↔ AreAlike (map plain_net nets.now.labels) rows.now.pins) }
    ensures first { IfOk result (λ found. IfSome found (IsFirstDifference (map plain_net nets.now.labels)
        rows.now.pins)) }
{
    let labels = nets.labels.as_slice();
    let pins = rows.pins.as_slice();
    let (found, stranger) = pins_and_stranger(rt, alloc, labels, pins, workers)?;
    first_difference(alloc, labels, pins, found, stranger)
}
