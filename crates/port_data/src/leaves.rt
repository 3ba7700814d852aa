ghost use Rattle.std.specs.Prelude.{◌≡◌, ◌<◌, ℕ, length};
ghost use Rattle.leaf_shapes.specs.Demands.{role_demands};
ghost use Rattle.leaf_tables.specs.Kits.{IsKit};
ghost use Rattle.leaf_tables.specs.NearLeaf.{IsLeafLength};
ghost use Rattle.floorplan.specs.Demanded.{IsDemandOf};
ghost use Rattle.floorplan.specs.LayoutOfKit.{layout_kit};

use cell_roles::Role;
use leaf_tables::{Kit, leaf_of};

/// The left end of the shape that a role's leaf cell has for the demand of this index, in nanometres.
pub fn pin_left(kit: &Kit, role: Role, index: usize) -> i64
    requires kit { IsKit kit.now }
    requires demand { index < length (role_demands role) }
    ensures is { (port metal : ℕ) → IsDemandOf role port metal index
        → result ≡ ((layout_kit kit.now).pin role port metal).x1 }
    ensures near { IsLeafLength result }
{
    leaf_of(kit, role).pins.as_slice()[index].rect.x1
}
