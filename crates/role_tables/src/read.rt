ghost use Rattle.std.specs.Prelude.{◌≡◌, ◌↔◌, IsTrue, OnOk, IfErr};
ghost use Rattle.or_geom.specs.Gathering.{SomeHas};
ghost use Rattle.cell_roles.specs.LeafRoles.{leaf_role_name};
ghost use Rattle.role_tables.specs.Fault.{IsRoleFault, IsTableFault};
ghost use Rattle.role_tables.specs.Table.{texts_of, HasTable, HasTables};

use crate::compare::first_differing;
use crate::fault::TableFault;
use crate::rows::{name_of, read_rows};
use cell_roles::{LeafRole, Role};
use or_geom::Name;
use std::alloc::Global;
use tech_rules::{RoleName, RoleRows, Tech};

/// Whether the technology names a cell for the role.
fn names_cell(entries: &[RoleName], role: LeafRole) -> bool
    ensures { IsTrue result ↔ SomeHas (λ entry. entry.role ≡ leaf_role_name role) entries.now }
{
    for entry in entries {
        if entry.role.is(role.name().as_bytes()) {
            return true;
        }
    }
    false
}

/// The rows of the role's table, as they are written; none where there is no table.
fn texts_of(tables: &[RoleRows], role: LeafRole) -> &[Name]
    ensures { result.now ≡ texts_of tables.now role }
{
    for table in tables {
        if table.role.is(role.name().as_bytes()) {
            return table.rows.as_slice();
        }
    }
    &[]
}

/// Whether the technology names a cell for the role, and has a table that says at each point what such a cell does:
/// first whether it is there, then all rows, then all points.
pub fn read_table(alloc: Global, tech: &Tech, role: LeafRole) -> Result<(), TableFault>
    ensures ok { OnOk result (HasTable tech.now role) }
    ensures err { IfErr result (IsRoleFault tech.now role) }
{
    let texts = texts_of(tech.tables.as_slice(), role);
    if !names_cell(tech.roles.as_slice(), role) || texts.is_empty() {
        return Err(TableFault::MissingRole {
            role: name_of(alloc, role)?,
        });
    }
    let rows = read_rows(alloc, role, texts)?;
    match first_differing(alloc, role, &rows)? {
        Some(point) => Err(TableFault::Differs {
            role: name_of(alloc, role)?,
            point,
        }),
        None => Ok(()),
    }
}

/// Whether the technology names a cell for each role, and has a table that says at each point what such a cell does.
/// Roles are looked at in their order, and of a role first whether it is there, then all rows, then all points.
pub fn read_tables(alloc: Global, tech: &Tech) -> Result<(), TableFault>
    ensures ok { OnOk result (HasTables tech.now) }
    ensures err { IfErr result (IsTableFault tech.now) }
{
    for role in Role::all() {
        read_table(alloc, tech, LeafRole::Common(role))?;
    }
    Ok(())
}
