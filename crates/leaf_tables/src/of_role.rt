ghost use Rattle.std.specs.Prelude.{◌≡◌, Some, length};
ghost use Rattle.leaf_shapes.specs.Demands.{role_demands};
ghost use Rattle.leaf_tables.specs.Alignment.{leaf_in};
ghost use Rattle.leaf_tables.specs.Kits.{IsKit};
ghost use Rattle.leaf_tables.specs.NearLeaf.{IsNearLeaf};
ghost use Rattle.tech_rules.specs.Facts.{IsWire};

use crate::kit::{Kit, Leaf};
use crate::lookup::role_number;
use cell_roles::Role;
use tech_rules::Wire;

/// The leaf of a role in a kit: its sides and pins, in nanometres.
pub fn leaf_of(kit: &Kit, role: Role) -> &Leaf
    requires { IsKit kit.now }
    ensures is { leaf_in kit.now.leaves role ≡ Some result.now }
    ensures near { IsNearLeaf result.now }
    ensures pins { length result.now.pins ≡ length (role_demands role) }
{
    &kit.leaves.as_slice()[role_number(role)]
}

/// What a kit's wires are drawn with: layers, width, space and cut, in nanometres.
pub fn wire_of(kit: &Kit) -> &Wire
    requires { IsKit kit.now }
    ensures is { kit.now.tech.wire ≡ Some result.now }
    ensures wire { IsWire kit.now.tech.layers result.now }
{
    match &kit.tech.wire {
        Some(wire) => wire,
        None => unreachable!(),
    }
}
