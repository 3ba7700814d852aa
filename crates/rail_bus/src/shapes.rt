ghost use Rattle.std.specs.Prelude.{◌≡◌, OnOk, All, length};
ghost use Rattle.or_geom.specs.Distance.{IsNear};
ghost use Rattle.or_geom.specs.Adds.{Adds};
ghost use Rattle.or_geom.specs.Gathering.{SomeGives};
ghost use Rattle.tech_rules.specs.Facts.{AreSizes};
ghost use Rattle.rail_bus.specs.Rails.{AreNearTaps, AreOfRails, EndBeyondRails, IsOfTap};
ghost use Rattle.rail_bus.specs.Highest.{AreFrom, IsRailBelow};

use or_geom::{Memory, Rect, Shape};
use tech_rules::Wire;
use wire_drawing::{Tap, via};

/// Adds the wires and cuts of the taps.
pub fn add_taps(
    xs: &[i64],
    taps: &[Tap],
    wire: &Wire,
    shapes: &mut Vec<Shape>,
) -> Result<(), Memory>
    requires sizes { AreSizes wire.now }
    requires near_xs { All IsNear xs.now }
    requires near_taps { AreNearTaps taps.now }
    requires of_rails { AreOfRails xs.now taps.now }
    requires ends { EndBeyondRails xs.now taps.now wire.now }
    ensures { OnOk result (Adds shapes.old.items shapes.new.items (SomeGives (IsOfTap xs.now wire.now) taps.now)) }
{
    for tap in taps {
        let x = xs[tap.rail as usize];
        let rect = Rect {
            x1: x,
            y1: tap.y,
            x2: tap.end,
            y2: tap.y + wire.width,
        };
        shapes.push(Shape {
            layer: wire.metals[2],
            rect,
        })?;
        shapes.push(via(wire, 2, x, tap.y))?;
    }
    Ok(())
}

/// Adds a rail at each x, up to the upper edge of a wire at the y that stands at the same place.
pub fn add_rails(
    low: i64,
    xs: &[i64],
    highest: &[i64],
    wire: &Wire,
    shapes: &mut Vec<Shape>,
) -> Result<(), Memory>
    requires sizes { AreSizes wire.now }
    requires each { length highest.now ≡ length xs.now }
    requires near_xs { All IsNear xs.now }
    requires near { All IsNear highest.now }
    requires from_low { AreFrom low highest.now }
    ensures { OnOk result (Adds shapes.old.items shapes.new.items
        (λ s. IsRailBelow low xs.now highest.now wire.now (length xs.now) s)) }
{
    for rail in 0..xs.len() {
        let x = xs[rail];
        let rect = Rect {
            x1: x,
            y1: low,
            x2: x + wire.width,
            y2: highest[rail] + wire.width,
        };
        shapes.push(Shape {
            layer: wire.metals[3],
            rect,
        })?;
    }
    Ok(())
}
