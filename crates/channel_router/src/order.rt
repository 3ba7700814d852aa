ghost use Rattle.std.specs.Prelude.{IfOk};
ghost use Rattle.channel_router.specs.Order.{IsTakingOrder};

use crate::channel::Interval;
use or_geom::Memory;
use std::alloc::Global;

/// The nets, each with the left end of its interval, by left end and then by number.
pub fn order_of(alloc: Global, intervals: &[Interval]) -> Result<Vec<(i64, usize)>, Memory>
    ensures { IfOk result (λ order. IsTakingOrder intervals.now order.items) }
{
    let mut order: Vec<(i64, usize)> = Vec::new(alloc);
    for net in 0..intervals.len() {
        order.push((intervals[net].left, net))?;
    }
    order.sort_unstable();
    Ok(order)
}
