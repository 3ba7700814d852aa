ghost use Rattle.std.specs.Prelude.{◌≡◌, ◌<◌, length};
ghost use Rattle.leaf_shapes.specs.Demands.{role_demands};
ghost use Rattle.leaf_tables.specs.Kits.{IsKit};
ghost use Rattle.leaf_tables.specs.NearLeaf.{IsLeafLength};
ghost use Rattle.main_channel.specs.Leaves.{pin_begin};

use cell_roles::Role;
use leaf_tables::{Kit, leaf_of};

/// Where the pin of this index begins in the role's cell, in nanometres.
pub fn pin_left(kit: &Kit, role: Role, pin: usize) -> i64
    requires kit { IsKit kit.now }
    requires there { pin < length (role_demands role) }
    ensures is { result ≡ pin_begin kit.now role pin }
    ensures near { IsLeafLength result }
{
    leaf_of(kit, role).pins.as_slice()[pin].rect.x1
}
