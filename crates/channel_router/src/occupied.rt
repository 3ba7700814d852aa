ghost use Rattle.std.specs.Prelude.{◌≡◌, ◌+◌, ◌<◌, ◌^◌, OnOk, IfSome, IfNone};
ghost use Rattle.channel_router.specs.Occupied.{IsEnded, NoneEnds, Releases, Takes};

use or_geom::Memory;
use std::collections::BTreeSet;

/// Takes the track that is free first out of the tracks in use, where it is free at `left` or before. A track in use
/// stands behind the place from which it is free.
fn pop_ended(left: i64, busy: &mut BTreeSet<(i64, u32)>) -> Option<u32>
    ensures ended { IfSome result (IsEnded left busy.old.keys busy.new.keys) }
    ensures none { IfNone result (NoneEnds left busy.new.keys) }
    ensures same { IfNone result (busy.new.keys ≡ busy.old.keys) }
{
    let (from, _) = *busy.first()?;
    if left < from {
        return None;
    }
    let (_, track) = busy.pop_first()?;
    Some(track)
}

/// Moves the tracks that are free at `left` from those in use to the free ones.
pub fn release(
    left: i64,
    busy: &mut BTreeSet<(i64, u32)>,
    free: &mut BTreeSet<u32>,
) -> Result<(), Memory>
    ensures { OnOk result (Releases left busy.old.keys free.old.keys busy.new.keys free.new.keys) }
{
    while let Some(track) = pop_ended(left, busy) {
        free.insert(track)?;
    }
    Ok(())
}

/// The lowest free track, which is free no longer, or else a new one.
pub fn take_track(free: &mut BTreeSet<u32>, opened: &mut u32) -> u32
    requires { opened.old + 1 < 2 ^ 32 }
    ensures { Takes free.old.keys opened.old free.new.keys opened.new result }
{
    if let Some(lowest) = free.pop_first() {
        return lowest;
    }
    let track = *opened;
    *opened += 1;
    track
}
