ghost use Rattle.std.specs.Prelude.{◌<◌, ◌^◌, ◌≤ℤ◌, pos, length, IfOk};
ghost use Rattle.channel_router.specs.Tracks.{AreForward, AreAssigned, LeaveRoom};

use crate::channel::Interval;
use crate::occupied::{release, take_track};
use crate::order::order_of;
use or_geom::Memory;
use std::alloc::Global;
use std::collections::BTreeSet;

/// The track of each net, and the number of tracks: nets are taken by left end and then by number, and each gets the
/// lowest track whose last interval ends at least a pitch before.
pub fn lowest_tracks(
    alloc: Global,
    intervals: &[Interval],
    pitch: i64,
) -> Result<(Vec<u32>, u32), Memory>
    requires few { length intervals.now < 2 ^ 32 }
    requires room { LeaveRoom pitch intervals.now }
    requires pitch { pos 0 ≤ℤ pitch }
    requires forward { AreForward intervals.now }
    ensures { IfOk result (λ assigned. AreAssigned pitch intervals.now assigned.0.items assigned.1) }
{
    let order = order_of(alloc, intervals)?;
    let mut track: Vec<u32> = vec![in alloc; 0; intervals.len()]?;
    let mut busy: BTreeSet<(i64, u32)> = BTreeSet::new(alloc);
    let mut free: BTreeSet<u32> = BTreeSet::new(alloc);
    let mut opened: u32 = 0;
    for k in 0..order.len() {
        let (left, net) = order[k];
        release(left, &mut busy, &mut free)?;
        let lowest = take_track(&mut free, &mut opened);
        track[net] = lowest;
        busy.insert((intervals[net].right + pitch, lowest))?;
    }
    Ok((track, opened))
}
