ghost use Rattle.std.specs.Prelude.{◌≡◌, IfOk};
ghost use Rattle.port_lists.specs.Held.{held_of};
ghost use Rattle.sram_netlist.specs.Numbers.{ArePlanNumbers};
ghost use Rattle.sram_plan.specs.PlanNumbers.{numbers_of};
ghost use Rattle.spice_netlist.specs.Faults.{AreFlatRows};
ghost use Rattle.sram_macro.specs.Macro.{IsMacro};
ghost use Rattle.sram_macro.specs.Leaves.{leaf_names};
ghost use Rattle.macro_build.specs.Built.{all_subckts};

use crate::order::Order;
use cell_roles::Role;
use leaf_tables::Kit;
use netlist::{Rows, joined_decks};
use or_geom::{Memory, Name};
use port_lists::{Contents, cell_names, fixed_cell_of};
use spice_netlist::{FlatFault, flat_rows};
use sram_macro::Macro;
use sram_rows::rows_equal_netlist;
use std::alloc::Global;

/// The names of the leaf cells, among them with fixed words those of the cells that hold a bit.
fn leaf_names(alloc: Global, kit: &Kit, contents: Contents<'_>) -> Result<Vec<Name>, Memory>
    ensures { IfOk result (λ names. names.items ≡ leaf_names kit.now (held_of contents.entry)) }
{
    let roles = kit.tech.roles.as_slice();
    let mut names = cell_names(alloc, roles, &Role::all())?;
    if let Contents::Fixed(_) = contents {
        names.push(Name::from_bytes(alloc, fixed_cell_of(roles, false))?)?;
        names.push(Name::from_bytes(alloc, fixed_cell_of(roles, true))?)?;
    }
    Ok(names)
}

/// The flat rows of the macro's netlist, whose subcircuits stand behind those of the kit, so that both together are
/// whole.
pub fn rows_of(alloc: Global, order: &Order, made: &Macro) -> Result<Rows, Memory>
    requires plan { ArePlanNumbers (numbers_of order.now.plan.now) }
    requires made { IsMacro order.now.kit.now order.now.plan.now (held_of order.now.contents)
        order.now.name.now made.now }
    ensures { IfOk result (λ rows. AreFlatRows (all_subckts order.now.kit.now made.now) order.now.name.now
        (leaf_names order.now.kit.now (held_of order.now.contents)) rows.pins) }
{
    // The call does nothing when the program runs: its contract is the law that no fault but want of memory comes.
    rows_equal_netlist();
    let deck = joined_decks(alloc, &order.kit.deck, &made.deck)?;
    let leaves = leaf_names(alloc, order.kit, order.contents)?;
    match flat_rows(alloc, &deck, order.name, &leaves) {
        Ok(rows) => Ok(rows),
        Err(fault) => match fault {
            FlatFault::Memory => Err(Memory),
            _ => unreachable!(),
        },
    }
}
