ghost use Rattle.std.specs.Prelude.{IfOk};
ghost use Rattle.spice_netlist.specs.Faults.{AreFlatRows};
ghost use Rattle.kit_check.specs.Makers.{HasFlatRows, subckts_with, role_cells};

use cell_roles::Role;
use leaf_tables::Kit;
use netlist::{Deck, Rows, joined_decks};
use or_geom::{Memory, Name};
use port_lists::cell_names;
use spice_netlist::{FlatFault, flat_rows};
use std::alloc::Global;

/// The flat rows of a macro's netlist. Its subcircuits, `made`, stand behind those of the kit, so that both together
/// are whole; leaves are the cells of the roles.
pub fn rows_of(alloc: Global, kit: &Kit, name: &Name, made: &Deck) -> Result<Rows, Memory>
    requires { HasFlatRows kit.now name.now made.now }
    ensures { IfOk result (λ rows. AreFlatRows (subckts_with kit.now made.now) name.now
        (role_cells kit.now) rows.pins) }
{
    let deck = joined_decks(alloc, &kit.deck, made)?;
    let leaves = cell_names(alloc, kit.tech.roles.as_slice(), &Role::all())?;
    match flat_rows(alloc, &deck, name, &leaves) {
        Ok(rows) => Ok(rows),
        Err(fault) => match fault {
            FlatFault::Memory => Err(Memory),
            _ => unreachable!(),
        },
    }
}
