ghost use Rattle.std.specs.Prelude.{◌≡◌, ◌<◌, IfOk, All};
ghost use Rattle.rail_bus.specs.Highest.{AreHighestAbove};

use or_geom::Memory;
use std::alloc::Global;
use wire_drawing::Tap;

/// The y of each rail's highest tap, or `low` where it has none above.
pub fn highest_taps(alloc: Global, low: i64, rails: usize, taps: &[Tap]) -> Result<Vec<i64>, Memory>
    requires { All (λ tap. tap.rail < rails) taps.now }
    ensures { IfOk result (λ highest. AreHighestAbove low rails taps.now highest.items) }
{
    let mut highest = vec![in alloc; low; rails]?;
    for tap in taps {
        let rail = tap.rail as usize;
        highest[rail] = highest[rail].max(tap.y);
    }
    Ok(highest)
}
