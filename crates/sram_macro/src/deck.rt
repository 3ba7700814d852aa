ghost use Rattle.std.specs.Prelude.{◌≡◌, IfOk};
ghost use Rattle.port_lists.specs.Cells.{cell_in};
ghost use Rattle.port_lists.specs.Contents.{AreHeldBy};
ghost use Rattle.port_lists.specs.Held.{held_of};
ghost use Rattle.sram_deck.specs.Deck.{logic_instances};
ghost use Rattle.sram_netlist.specs.Numbers.{ArePlanNumbers};
ghost use Rattle.sram_plan.specs.PlanNumbers.{numbers_of, organization};
ghost use Rattle.sram_macro.specs.Macro.{macro_deck};

use crate::top_subckt::macro_subckt;
use bank_layout::bank_subckt;
use bitcell_array::add_subckts;
use control_logic::logic_subckt;
use leaf_tables::Kit;
use netlist::{Deck, Instance};
use or_geom::{Items, Memory, Name};
use port_data::data_subckt;
use port_lists::Contents;
use sram_plan::Plan;
use std::alloc::Global;

/// The subcircuits of the macro, in the order in which they are written; `gates` are those of its logic row.
pub fn macro_deck(
    alloc: Global,
    kit: &Kit,
    plan: &Plan,
    name: &Name,
    contents: Contents<'_>,
    gates: Vec<Instance>,
) -> Result<Deck, Memory>
    requires plan { ArePlanNumbers (numbers_of plan.now) }
    requires contents { AreHeldBy (organization plan.now) (held_of contents) }
    requires gates { gates.items ≡ logic_instances (organization plan.now) (cell_in kit.now.tech.roles) }
    ensures { IfOk result (λ deck. deck ≡ macro_deck kit.now plan.now (held_of contents.entry) name.now) }
{
    let roles = kit.tech.roles.as_slice();
    let mut subckts = Items::new(alloc);
    add_subckts(alloc, kit, plan, name, contents, &mut subckts)?;
    subckts.push(data_subckt(alloc, plan, roles, name)?)?;
    subckts.push(bank_subckt(alloc, plan, name)?)?;
    subckts.push(logic_subckt(alloc, kit, plan, name, gates)?)?;
    subckts.push(macro_subckt(alloc, plan, name)?)?;
    Ok(Deck { subckts, used: 0 })
}
