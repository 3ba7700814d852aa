ghost use Rattle.std.specs.Prelude.{◌≡◌, ◌≤◌, ◌+◌, ◌*◌, ◌++◌, pos, IfOk};
ghost use Rattle.cell_builder.specs.Additions.{instance_at};
ghost use Rattle.macro_layout.specs.LayoutKit.{LayoutKit};
ghost use Rattle.macro_layout.specs.Places.{upright, bit_height, in_row_at};
ghost use Rattle.macro_layout.specs.Cells.{bare_cell};
ghost use Rattle.port_lists.specs.Cells.{cell_in};
ghost use Rattle.port_lists.specs.Spelled.{spelled};

use cell_builder::{DrawnCell, PlacedInstance};
use cell_roles::Role;
use leaf_tables::Kit;
use or_geom::{Items, Memory, Name, Orient, Place, Point};
use port_lists::{Spelling, cell_of, part_name, spell};
use std::alloc::Global;

/// A place without a turn.
pub fn upright(x: u32, y: i64) -> Place
    ensures { result ≡ upright (pos x) y }
{
    Place {
        orient: Orient::R0,
        at: Point { x: i64::from(x), y },
    }
}

/// Where a row of an array stands whose rows are so high: every other one is mirrored.
pub fn row_place(row: u32, height: u32) -> Place
    requires row { row ≤ 256 }
    requires height { height ≤ 65536 }
    ensures { (kit : LayoutKit) → height ≡ bit_height kit → result ≡ in_row_at kit (pos 0) row (pos 0) }
{
    if row % 2 == 0 {
        return upright(0, i64::from(column_x(0, row, height)));
    }
    Place {
        orient: Orient::MX,
        at: Point {
            x: 0,
            y: i64::from(column_x(0, row + 1, height)),
        },
    }
}

/// So many widths to the right of `from`.
pub fn column_x(from: u32, column: u32, width: u32) -> u32
    requires from { from ≤ 131072 }
    requires column { column ≤ 257 }
    requires width { width ≤ 65536 }
    ensures { result ≡ from + column * width }
{
    from + column * width
}

/// An instance of the cell of this name, without a turn.
pub fn cell_at(
    alloc: Global,
    cell: &[u8],
    name: Spelling,
    x: u32,
    y: i64,
) -> Result<PlacedInstance, Memory>
    ensures { IfOk result (λ i. i ≡ instance_at (spelled name) cell.now (upright (pos x) y)) }
{
    Ok(PlacedInstance {
        name: spell(alloc, name)?,
        of: Name::from_bytes(alloc, cell)?,
        place: upright(x, y),
    })
}

/// An instance of a role's cell, without a turn.
pub fn leaf_at(
    alloc: Global,
    kit: &Kit,
    role: Role,
    name: Spelling,
    x: u32,
    y: i64,
) -> Result<PlacedInstance, Memory>
    ensures { IfOk result (λ i. i ≡ instance_at (spelled name) (cell_in kit.now.tech.roles role) (upright (pos x) y)) }
{
    cell_at(alloc, cell_of(kit.tech.roles.as_slice(), role), name, x, y)
}

/// A cell without wires and labels.
pub fn unwired_cell(alloc: Global, name: Name, instances: Vec<PlacedInstance>) -> DrawnCell
    ensures { result ≡ bare_cell name instances.items }
{
    DrawnCell {
        name,
        instances: Items::from_vec(instances),
        wires: Items::new(alloc),
        labels: Items::new(alloc),
    }
}

/// A cell without wires and labels, named by the macro's name and `part`.
pub fn bare_cell(
    alloc: Global,
    name: &Name,
    part: &[u8],
    instances: Vec<PlacedInstance>,
) -> Result<DrawnCell, Memory>
    ensures { IfOk result (λ cell. cell ≡ bare_cell (name.now ++ part.now) instances.items) }
{
    Ok(unwired_cell(alloc, part_name(alloc, name, part)?, instances))
}
