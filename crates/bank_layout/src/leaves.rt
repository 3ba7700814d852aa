ghost use Rattle.std.specs.Prelude.{◌≡◌, ◌<◌, length};
ghost use Rattle.or_geom.specs.Place.{IsNearPoint};
ghost use Rattle.leaf_shapes.specs.Demands.{role_demands};
ghost use Rattle.leaf_tables.specs.Kits.{IsKit};
ghost use Rattle.row_decoder.specs.RowTaps.{pin_tap};
ghost use Rattle.bank_layout.specs.BankTaps.{IsInCell, IsLeafPin};

use cell_roles::Role;
use leaf_tables::{Kit, LeafPin, leaf_of};
use or_geom::Place;
use wire_drawing::Tap;

/// The pin at a place among the pins of the role's leaf.
pub fn pin_of(kit: &Kit, role: Role, place: usize) -> &LeafPin
    requires kit { IsKit kit.now }
    requires place { place < length (role_demands role) }
    ensures is { IsLeafPin kit.now.leaves role place result.now }
    ensures inside { IsInCell result.now.rect }
{
    &leaf_of(kit, role).pins.as_slice()[place]
}

/// The tap of a pin of a cell that stands at the place.
pub fn pin_tap(rail: u32, place: Place, pin: &LeafPin) -> Tap
    requires place { IsNearPoint place.at }
    requires pin { IsInCell pin.now.rect }
    ensures { result ≡ pin_tap rail place pin.now }
{
    let rect = place.apply(pin.rect);
    Tap {
        rail,
        y: rect.y1,
        end: rect.x2,
    }
}
