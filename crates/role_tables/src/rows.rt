ghost use Rattle.std.specs.Prelude.{◌≡◌, ◌↔◌, IsTrue, IfOk, IfErr, IfSome, IsNone};
ghost use Rattle.or_geom.specs.Gathering.{SomeHas};
ghost use Rattle.cell_roles.specs.LeafRoles.{leaf_role_name};
ghost use Rattle.role_tables.specs.Fault.{IsBadText, IsRowsFault};
ghost use Rattle.role_tables.specs.Point.{MatchOnePoint};
ghost use Rattle.role_tables.specs.Table.{IsWrittenAs, AreRoleRows};

use crate::fault::TableFault;
use crate::row::RowText;
use cell_roles::LeafRole;
use or_geom::{Memory, Name};
use std::alloc::Global;

/// The role's name in a fault.
pub fn name_of(alloc: Global, role: LeafRole) -> Result<Name, Memory>
    ensures { IfOk result (λ name. name ≡ leaf_role_name role) }
{
    Name::from_bytes(alloc, role.name().as_bytes())
}

/// Whether the row matches a point that one of the others matches.
fn shares_point_with_some(row: &RowText, others: &[RowText]) -> bool
    ensures { IsTrue result ↔ SomeHas (MatchOnePoint row.now) others.now }
{
    for other in others {
        if row.shares_point(other) {
            return true;
        }
    }
    false
}

/// The row that the text is, if it is one that matches no point that an earlier row matches.
fn next_row<'a>(role: LeafRole, before: &[RowText], text: &'a [u8]) -> Option<RowText<'a>>
    ensures some { IfSome result (IsWrittenAs role text.now) }
    ensures apart { IfSome result (λ row. SomeHas (MatchOnePoint row) before.now → ⊥) }
    ensures none { IsNone result → IsBadText role before.now text.now }
{
    let row = RowText::cut(role, text)?;
    if shares_point_with_some(&row, before) {
        return None;
    }
    Some(row)
}

/// The rows that the texts are, no two of which match one point.
pub fn read_rows<'a>(
    alloc: Global,
    role: LeafRole,
    texts: &'a [Name],
) -> Result<Vec<RowText<'a>>, TableFault>
    ensures ok { IfOk result (λ rows. AreRoleRows role texts.now rows.items) }
    ensures err { IfErr result (IsRowsFault role texts.now) }
{
    let mut rows = Vec::new(alloc);
    for (i, text) in texts.iter().enumerate() {
        let Some(row) = next_row(role, &rows, text.as_bytes()) else {
            return Err(TableFault::BadRow {
                role: name_of(alloc, role)?,
                row: i as u32,
            });
        };
        rows.push(row).map_err(Memory::from)?;
    }
    Ok(rows)
}
