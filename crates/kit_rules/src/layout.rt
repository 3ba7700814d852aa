ghost use Rattle.std.specs.Prelude.{◌≡◌, ◌≤◌, IfOk, Some, length};
ghost use Rattle.std.specs.Option.{option_copied};
ghost use Rattle.std.specs.List.Sorted.{IsStrictlySortedBy};
ghost use Rattle.or_geom.specs.Reachable.{AreReachable};
ghost use Rattle.or_geom.specs.ShapeOrder.{shape_order};
ghost use Rattle.cell_hierarchy.specs.Plain.{lists_of};
ghost use Rattle.leaf_tables.specs.Kits.{IsKit};
ghost use Rattle.cell_roles.specs.declared.leaf_role.LeafRole.TheVariants.{Common};
ghost use Rattle.leaf_tables.specs.Leaves.{cell_named_for};
ghost use Rattle.kit_rules.specs.Layout.{IsFlatLeaf};

use bumpalo::Bump;
use cell_hierarchy::{Flat, FlattenFault, flatten};
use leaf_tables::{Kit, Role};
use or_geom::{Memory, Name};
use std::alloc::Global;
use tech_rules::RoleName;

/// The name of the cell that plays the role.
fn cell_named_for(roles: &[RoleName], role: Role) -> Option<&Name>
    ensures { option_copied result ≡ cell_named_for roles.now (Common role) }
{
    let name = role.name();
    for entry in roles {
        if entry.role.is(name.as_bytes()) {
            return Some(&entry.cell);
        }
    }
    None
}

/// The name of the role's cell in a kit.
pub fn cell_of(kit: &Kit, role: Role) -> &Name
    requires { IsKit kit.now }
    ensures { cell_named_for kit.now.tech.roles (Common role) ≡ Some result.now }
{
    match cell_named_for(kit.tech.roles.as_slice(), role) {
        Some(cell) => cell,
        None => unreachable!(),
    }
}

/// The flat layout of the role's cell in a kit.
pub fn leaf_layout<'b>(
    alloc: Global,
    bump: &'b Bump,
    kit: &Kit,
    role: Role,
    cell: &Name,
) -> Result<Flat<'b>, Memory>
    requires kit { IsKit kit.now }
    requires plays { cell_named_for kit.now.tech.roles (Common role) ≡ Some cell.now }
    ensures flat { IfOk result (λ flat. IsFlatLeaf kit.now role cell.now (lists_of flat)) }
    ensures rises { IfOk result (λ flat. IsStrictlySortedBy shape_order flat.shapes.now) }
    ensures reach { IfOk result (λ flat. AreReachable flat.shapes.now) }
    ensures few { IfOk result (λ flat. length flat.shapes.now ≤ 16777216) }
{
    match flatten(alloc, bump, &kit.lib, &kit.tech, cell) {
        Ok(flat) => Ok(flat),
        Err(fault) => match fault {
            FlattenFault::Memory => Err(Memory),
            _ => unreachable!(),
        },
    }
}
