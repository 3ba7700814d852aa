ghost use Rattle.std.specs.Prelude.{◌≡◌, IfOk, IfErr, All};
ghost use Rattle.or_geom.specs.Distance.{IsNear};
ghost use Rattle.tech_rules.specs.Facts.{AreSizes};
ghost use Rattle.wire_drawing.specs.Drawing.{pitch};
ghost use Rattle.wire_drawing.specs.Spacing.{AreClose, IsFirstClose};
ghost use Rattle.rail_bus.specs.Rails.{tap_ys, AreNearTaps, AreOfRails, EndBeyondRails, AreTapped, AreRails};
ghost use Rattle.rail_bus.specs.Rails.{IsTapFault};

use crate::highest::highest_taps;
use crate::shapes::{add_rails, add_taps};
use or_geom::{Memory, Shape};
use std::alloc::{AllocError, Global};
use tech_rules::Wire;
use wire_drawing::{RouteFault, Tap, first_close};

/// The wires of vertical rails that begin at `low`, one at each x, and of their taps. A tap is a wire on the third
/// metal from its rail to its end, and a cut to the fourth metal. A rail stands on the fourth metal, up to its highest
/// tap. Taps that are nearer to each other than the pitch are refused.
pub fn rails(
    alloc: Global,
    low: i64,
    xs: &[i64],
    taps: &[Tap],
    wire: &Wire,
) -> Result<Vec<Shape>, RouteFault>
    requires sizes { AreSizes wire.now }
    requires near_low { IsNear low }
    requires near_xs { All IsNear xs.now }
    requires near_taps { AreNearTaps taps.now }
    requires of_rails { AreOfRails xs.now taps.now }
    requires ends { EndBeyondRails xs.now taps.now wire.now }
    requires tapped { AreTapped low xs.now taps.now }
    ensures drawn { IfOk result (λ shapes. AreRails low xs.now taps.now wire.now shapes.items) }
    ensures apart { IfOk result (λ shapes. AreClose (pitch wire.now) (tap_ys taps.now) → ⊥) }
    ensures fault { IfErr result (IsTapFault (pitch wire.now) taps.now) }
{
    if let Some((first, second)) = close_taps(alloc, taps, wire)? {
        return Err(RouteFault::TapsClose { first, second });
    }
    let highest = highest_taps(alloc, low, xs.len(), taps)?;
    let mut shapes = Vec::new(alloc);
    add_taps(xs, taps, wire, &mut shapes)?;
    add_rails(low, xs, &highest, wire, &mut shapes)?;
    Ok(shapes)
}

/// The lowest two taps that are nearer to each other than the pitch.
fn close_taps(alloc: Global, taps: &[Tap], wire: &Wire) -> Result<Option<(i64, i64)>, Memory>
    requires sizes { AreSizes wire.now }
    requires near { AreNearTaps taps.now }
    ensures { IfOk result (λ close. IsFirstClose (pitch wire.now) (tap_ys taps.now) close) }
{
    Ok(first_close(ys_of(alloc, taps)?, wire.width + wire.space))
}

fn ys_of(alloc: Global, taps: &[Tap]) -> Result<Vec<i64>, AllocError>
    ensures { IfOk result (λ ys. ys.items ≡ tap_ys taps.now) }
{
    taps.iter().map(|tap| tap.y).collect(alloc)
}
