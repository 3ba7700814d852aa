ghost use Rattle.std.specs.Prelude.{◌≡◌, ◌<◌, ◌^◌, length, IfOk, IfErr, OnOk};
ghost use Rattle.leaf_tables.specs.Kits.{IsKit};
ghost use Rattle.sram_netlist.specs.Numbers.{ArePlanNumbers};
ghost use Rattle.sram_plan.specs.PlanNumbers.{numbers_of, organization};
ghost use Rattle.port_lists.specs.Cells.{cell_in};
ghost use Rattle.bank_layout.specs.BankPart.{with_bank_subckts, IsBankBuilt, IsBankPartRefused};

use crate::cell::bank_cell;
use crate::edges::{BankFrame, bank_edges};
use crate::subckt::bank_subckt;
use crate::wires::bank_wires;
use bitcell_array::build as build_array;
use cell_builder::Cells;
use floorplan::{floorplan, sides_of};
use leaf_tables::{Edges, Kit, PartFault, wire_of};
use macro_bounds::routed_shapes_are_near;
use netlist::Deck;
use or_geom::Name;
use part_edges::add_part;
use port_data::{add_data, channel, refuse_narrow_slices};
use sram_plan::Plan;
use std::alloc::Global;

/// Adds the cells and the subcircuits of a bank: those of its array, its precharge and its data, and its own. Answers
/// where nets come to its edges, in nanometres from its lower left corner, which is the macro's left end at the lower
/// edge of the data; nets inside the bank's parts have the names that they have there. `name` is the macro's.
/// `SliceTooNarrow`: the sense cell, or else the write cell where something is written, is wider than the columns of a
/// bit; or else `Close`: pins of the column channel are nearer to each other than the pitch, x from the left end of the
/// columns; or else `TapsClose`: taps of the rails are, y from the bank's lower side. After a refusal a part of the
/// bank may be added.
pub fn build(
    alloc: Global,
    kit: &Kit,
    plan: &Plan,
    name: &Name,
    cells: &mut Cells,
    deck: &mut Deck,
) -> Result<Edges, PartFault>
    requires kit { IsKit kit.now }
    requires plan { ArePlanNumbers (numbers_of plan.now) }
    requires few { length cells.old.cells < 2 ^ 30 }
    ensures built { IfOk result (IsBankBuilt kit.now (organization plan.now) name.now cells.old cells.new) }
    ensures deck { OnOk result (deck.new ≡ with_bank_subckts (organization plan.now)
        (cell_in kit.now.tech.roles) name.now deck.old) }
    ensures fault { IfErr result (IsBankPartRefused kit.now (organization plan.now)) }
{
    refuse_narrow_slices(alloc, kit, plan)?;
    let routed = channel(alloc, kit, plan)?;
    let sides = sides_of(alloc, kit, plan)?;
    // Where parts stand in a bank is the same however many tracks the main channel has.
    let stands = floorplan(plan, &sides, wire_of(kit), 0, routed.tracks);
    // The column channel lies near the origin, by this law.
    routed_shapes_are_near();
    let wires = bank_wires(alloc, kit, plan, &sides, &stands, &routed)?;
    let cell = bank_cell(alloc, name, &sides, &stands, wires)?;
    let subckt = bank_subckt(alloc, plan, name)?;
    build_array(alloc, kit, plan, name, cells, deck)?;
    let data_edges = add_data(alloc, kit, plan, name, routed.tracks, cells, deck)?;
    let ports = subckt.ports.as_slice();
    let low = data_edges.bottom.as_slice();
    let frame = BankFrame {
        sides,
        floorplan: stands,
    };
    let edges = bank_edges(alloc, kit, plan, name, &frame, ports, low)?;
    add_part(alloc, cell, subckt, cells, deck)?;
    Ok(edges)
}
