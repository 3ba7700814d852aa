ghost use Rattle.std.specs.Prelude.{length, IfOk};
ghost use Rattle.channel_router.specs.Channel.{AreOfNets, IsChannel};
ghost use Rattle.channel_router.specs.Intervals.{AreIntervals};
ghost use Rattle.channel_router.specs.Hull.{Widens};

use crate::channel::{Channel, ChannelPin, Interval};
use or_geom::Memory;
use std::alloc::Global;

/// Holds no x: each pin widens it to its own place.
const NOWHERE: Interval = Interval {
    left: i64::MAX,
    right: i64::MIN,
};

/// The intervals, widened so that they hold the pins of their nets.
fn widened(pins: &[ChannelPin], mut intervals: Vec<Interval>) -> Vec<Interval>
    requires { AreOfNets (length intervals.items) pins.now }
    ensures { Widens pins.now intervals.items result.items }
{
    for pin in pins {
        let net = pin.net as usize;
        let old = intervals[net];
        intervals[net] = Interval {
            left: old.left.min(pin.x),
            right: old.right.max(pin.x),
        };
    }
    intervals
}

/// The interval of each net: from its least to its greatest x over pins and exits.
pub fn intervals_of(alloc: Global, ch: &Channel) -> Result<Vec<Interval>, Memory>
    requires { IsChannel ch.now }
    ensures { IfOk result (λ intervals. AreIntervals ch.now intervals.items) }
{
    let nowhere: Vec<Interval> = vec![in alloc; NOWHERE; ch.nets as usize]?;
    let top = widened(ch.top.as_slice(), nowhere);
    let sides = widened(ch.bottom.as_slice(), top);
    Ok(widened(ch.exits.as_slice(), sides))
}
