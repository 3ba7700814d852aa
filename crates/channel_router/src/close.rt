ghost use Rattle.std.specs.Prelude.{◌≡◌, IfOk, IfErr, OnOk};
ghost use Rattle.tech_rules.specs.Facts.{AreSizes};
ghost use Rattle.wire_drawing.specs.Drawing.{pitch};
ghost use Rattle.wire_drawing.specs.Spacing.{IsFirstClose};
ghost use Rattle.channel_router.specs.Channel.{ArePinsNear, IsChannel};
ghost use Rattle.channel_router.specs.Routed.{pin_xs, HasClosePins, IsRouteFault};

use crate::channel::{Channel, ChannelPin};
use or_geom::Memory;
use std::alloc::{AllocError, Global};
use tech_rules::Wire;
use wire_drawing::{RouteFault, first_close};

/// Refuses the first two pins of one side that are nearer to each other than the pitch, those of the top first.
pub fn refuse_close_pins(alloc: Global, ch: &Channel, wire: &Wire) -> Result<(), RouteFault>
    requires sizes { AreSizes wire.now }
    requires channel { IsChannel ch.now }
    ensures apart { OnOk result (HasClosePins ch.now wire.now → ⊥) }
    ensures fault { IfErr result (IsRouteFault ch.now wire.now) }
{
    if let Some((first, second)) = close_pins(alloc, ch.top.as_slice(), wire)? {
        return Err(RouteFault::Close {
            side: 0,
            first,
            second,
        });
    }
    if let Some((first, second)) = close_pins(alloc, ch.bottom.as_slice(), wire)? {
        return Err(RouteFault::Close {
            side: 1,
            first,
            second,
        });
    }
    Ok(())
}

/// The lowest two pins that are nearer to each other than the pitch.
fn close_pins(alloc: Global, pins: &[ChannelPin], wire: &Wire) -> Result<Option<(i64, i64)>, Memory>
    requires sizes { AreSizes wire.now }
    requires near { ArePinsNear pins.now }
    ensures { IfOk result (λ close. IsFirstClose (pitch wire.now) (pin_xs pins.now) close) }
{
    Ok(first_close(xs_of(alloc, pins)?, wire.width + wire.space))
}

fn xs_of(alloc: Global, pins: &[ChannelPin]) -> Result<Vec<i64>, AllocError>
    ensures { IfOk result (λ xs. xs.items ≡ pin_xs pins.now) }
{
    pins.iter().map(|pin| pin.x).collect(alloc)
}
