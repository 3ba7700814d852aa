ghost use Rattle.std.specs.Prelude.{◌≡◌, ◌<◌, ◌++◌, ◌∷◌, [], ◌^◌, length, OnOk, OnErr};
ghost use Rattle.cell_builder.specs.CellList.{with_drawn};
ghost use Rattle.part_edges.specs.Additions.{with_subckt};

use cell_builder::{Cells, DrawnCell};
use netlist::{Deck, Subckt};
use or_geom::{Items, Memory};
use std::alloc::Global;
use std::mem;

/// Adds a part's cell to the cells and its subcircuit to the deck. Where memory is wanting nothing is added.
pub fn add_part(
    alloc: Global,
    cell: DrawnCell,
    subckt: Subckt,
    cells: &mut Cells,
    deck: &mut Deck,
) -> Result<(), Memory>
    requires { length cells.old.cells < 2 ^ 32 }
    ensures cells { OnOk result (cells.new ≡ with_drawn cell cells.old) }
    ensures deck { OnOk result (deck.new ≡ with_subckt subckt deck.old) }
    ensures same_cells { OnErr result (cells.new ≡ cells.old) }
    ensures same_deck { OnErr result (deck.new ≡ deck.old) }
{
    let mut subckts = mem::replace(&mut deck.subckts, Items::new(alloc)).into_vec();
    let added = add_both(cell, subckt, cells, &mut subckts);
    deck.subckts = Items::from_vec(subckts);
    added
}

/// Adds both, or neither.
fn add_both(
    cell: DrawnCell,
    subckt: Subckt,
    cells: &mut Cells,
    subckts: &mut Vec<Subckt>,
) -> Result<(), Memory>
    requires { length cells.old.cells < 2 ^ 32 }
    ensures cells { OnOk result (cells.new ≡ with_drawn cell cells.old) }
    ensures subckts { OnOk result (subckts.new.items ≡ subckts.old.items ++ subckt ∷ []) }
    ensures same_cells { OnErr result (cells.new ≡ cells.old) }
    ensures same_subckts { OnErr result (subckts.new.items ≡ subckts.old.items) }
{
    // With room for the subcircuit nothing can fail once the cell is drawn.
    subckts.reserve(1)?;
    cells.draw(cell)?;
    subckts.push(subckt)?;
    Ok(())
}
