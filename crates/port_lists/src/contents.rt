ghost use Rattle.std.specs.Prelude.{◌≡◌, ◌<◌, List, IfOk};
ghost use Rattle.sram_netlist.specs.BitCells.{bit_cell, row_kinds, row_name};
ghost use Rattle.sram_netlist.specs.Netlist.{high_bits, lowest_bit};
ghost use Rattle.sram_netlist.specs.Numbers.{ArePlanNumbers};
ghost use Rattle.sram_netlist.specs.Organization.{bank_rows, columns_of};
ghost use Rattle.sram_plan.specs.PlanNumbers.{numbers_of, organization};
ghost use Rattle.tech_rules.specs.declared.tech.RoleName.{RoleName};
ghost use Rattle.port_lists.specs.Contents.{IsContents, bit_cells};

use crate::cell::{cell_of, fixed_cell_of, part_name};
use cell_roles::Role;
use or_geom::{Memory, Name};
use sram_plan::Plan;
use std::alloc::Global;
use tech_rules::RoleName;

/// What the bits of a memory are.
#[derive(Clone, Copy, Debug)]
pub enum Contents<'a> {
    /// Stored and written: all are of one cell.
    Stored,
    /// Those of these words, in the order of their addresses: each is of a cell that holds it.
    Fixed(&'a [u64]),
}

/// How many of a bank's rows are told apart.
pub fn row_kinds(plan: &Plan, contents: Contents<'_>) -> u32
    requires { ArePlanNumbers (numbers_of plan.now) }
    ensures { (roles : List RoleName) → result ≡ row_kinds (bit_cells roles (organization plan.now) contents.entry)
        (bank_rows (organization plan.now)) }
{
    match contents {
        Contents::Stored => 1,
        Contents::Fixed(_) => plan.rows,
    }
}

/// The name of a row's part. `name` is the macro's.
pub fn row_name(
    alloc: Global,
    plan: &Plan,
    contents: Contents<'_>,
    name: &Name,
    row: u32,
) -> Result<Name, Memory>
    ensures { IfOk result (λ made. (roles : List RoleName)
        → made ≡ row_name (bit_cells roles (organization plan.now) contents.entry) name.now row) }
{
    match contents {
        Contents::Stored => part_name(alloc, name, b"_row"),
        Contents::Fixed(_) => {
            let part = format!(in alloc; "_row{row}")?;
            Ok(part_name(alloc, name, part.as_bytes())?)
        }
    }
}

/// The name of the cell of the bit in a row and a column.
pub fn bit_cell<'a>(
    plan: &Plan,
    roles: &'a [RoleName],
    contents: Contents<'_>,
    row: u32,
    column: u32,
) -> &'a [u8]
    requires numbers { ArePlanNumbers (numbers_of plan.now) }
    requires contents { IsContents (organization plan.now) contents }
    requires row { row < bank_rows (organization plan.now) }
    requires column { column < columns_of (organization plan.now) }
    ensures { result.now ≡ bit_cell (bit_cells roles.now (organization plan.now) contents.entry) row column }
{
    match contents {
        Contents::Stored => cell_of(roles, Role::Bitcell),
        Contents::Fixed(words) => {
            let word = words[(row * plan.wpr + column % plan.wpr) as usize];
            fixed_cell_of(roles, has_bit(word, column / plan.wpr))
        }
    }
}

/// Whether this bit of a word is 1.
fn has_bit(word: u64, bit: u32) -> bool
    ensures { result ≡ lowest_bit (high_bits bit word) }
{
    bit < 64 && (word >> bit) % 2 == 1
}
