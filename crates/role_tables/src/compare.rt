ghost use Rattle.std.specs.Prelude.{◌≡◌, ◌↔◌, All, option_copied, IfOk, IsTrue, length};
ghost use Rattle.cell_roles.specs.LeafRoles.{leaf_stored, leaf_table};
ghost use Rattle.role_tables.specs.Fault.{FindsPoint};
ghost use Rattle.role_tables.specs.Point.{first_match, point_with, SaySame};
ghost use Rattle.role_tables.specs.Table.{HasWidths};

use crate::points::{all_values, point_text};
use crate::row::RowText;
use cell_roles::{LeafRole, leaf_table_rows};
use or_geom::{Memory, Name};
use std::alloc::Global;

/// The rows of the role's own table.
fn rows_of(alloc: Global, role: LeafRole) -> Result<Vec<RowText<'static>>, Memory>
    ensures { IfOk result (λ rows. rows.items ≡ leaf_table role) }
{
    let mut rows = Vec::new(alloc);
    for text in leaf_table_rows(role) {
        if let Some(row) = RowText::cut(role, text.as_bytes()) {
            rows.push(row)?;
        }
    }
    Ok(rows)
}

/// The first row that matches the point with these inputs and stored bits.
fn first_match<'b, 'a>(
    rows: &'b [RowText<'a>],
    inputs: &[bool],
    stored: &[bool],
) -> Option<&'b RowText<'a>>
    ensures { option_copied result ≡ first_match rows.now (point_with inputs.now stored.now) }
{
    rows.iter().find(|row| row.matches(inputs, stored))
}

/// Whether both tables say something at the point, and the same.
fn agree(
    role: LeafRole,
    rows: &[RowText],
    others: &[RowText],
    inputs: &[bool],
    stored: &[bool],
) -> bool
    requires rows { All (HasWidths role) rows.now }
    requires others { All (HasWidths role) others.now }
    requires bits { length stored.now ≡ length (leaf_stored role) }
    ensures { IsTrue result ↔ SaySame rows.now others.now (point_with inputs.now stored.now) }
{
    let Some(row) = first_match(rows, inputs, stored) else {
        return false;
    };
    match first_match(others, inputs, stored) {
        Some(other) => row.says_same(other, stored),
        None => false,
    }
}

/// The first point, in counting order, at which the rows don't say what a cell of the role does.
pub fn first_differing(
    alloc: Global,
    role: LeafRole,
    rows: &[RowText],
) -> Result<Option<Name>, Memory>
    requires { All (HasWidths role) rows.now }
    ensures { IfOk result (FindsPoint role rows.now) }
{
    let own = rows_of(alloc, role)?;
    let inputs = role.inputs().len();
    let points = all_values(alloc, inputs + role.stored().len())?;
    for point in &points {
        let (looks, stored) = point.split_at(inputs);
        if !agree(role, rows, &own, looks, stored) {
            return Ok(Some(point_text(alloc, looks, stored)?));
        }
    }
    Ok(None)
}
