ghost use Rattle.std.specs.Prelude.{◌≡◌, ◌<◌, ◌≤◌};
ghost use Rattle.leaf_tables.specs.Kits.{IsKit};
ghost use Rattle.floorplan.specs.LeafSides.{leaf_width, leaf_height};

use cell_roles::Role;
use leaf_tables::{Kit, leaf_of};

/// The width of a role's leaf cell, in nanometres.
pub fn leaf_width(kit: &Kit, role: Role) -> u32
    requires { IsKit kit.now }
    ensures is { result ≡ leaf_width kit.now role }
    ensures few { result ≤ 65536 }
    ensures some { 0 < result }
{
    leaf_of(kit, role).width as u32
}

/// The height of a role's leaf cell, in nanometres.
pub fn leaf_height(kit: &Kit, role: Role) -> u32
    requires { IsKit kit.now }
    ensures is { result ≡ leaf_height kit.now role }
    ensures few { result ≤ 65536 }
    ensures some { 0 < result }
{
    leaf_of(kit, role).height as u32
}
