ghost use Rattle.std.specs.Prelude.{◌≡◌, IfOk};
ghost use Rattle.sram_netlist.specs.Numbers.{ArePlanNumbers};
ghost use Rattle.sram_plan.specs.PlanNumbers.{numbers_of, organization};
ghost use Rattle.sram_deck.specs.Deck.{logic_instances, logic_ports};
ghost use Rattle.port_lists.specs.Cells.{cell_in};
ghost use Rattle.control_logic.specs.LogicPart.{logic_row_subckt};

use leaf_tables::Kit;
use netlist::{Instance, Subckt};
use or_geom::{Memory, Name};
use port_lists::{NameList, Spelling, groups_of, part_name, subckt_of};
use sram_plan::{Plan, inputs_of};
use std::alloc::Global;

/// The subcircuit of the logic row, whose instances are these gates. `name` is the macro's.
pub fn logic_subckt(
    alloc: Global,
    kit: &Kit,
    plan: &Plan,
    name: &Name,
    gates: Vec<Instance>,
) -> Result<Subckt, Memory>
    requires plan { ArePlanNumbers (numbers_of plan.now) }
    requires gates { gates.items ≡ logic_instances (organization plan.now) (cell_in kit.now.tech.roles) }
    ensures { IfOk result (λ s. s ≡ logic_row_subckt (organization plan.now) (cell_in kit.now.tech.roles) name.now) }
{
    let groups = groups_of(alloc, plan)?;
    let ports = logic_port_list(alloc, plan, &groups)?;
    Ok(subckt_of(alloc, part_name(alloc, name, b"_logic")?, ports, gates))
}

/// The ports of the logic row.
pub fn logic_port_list(alloc: Global, plan: &Plan, groups: &[u32]) -> Result<NameList, Memory>
    requires numbers { ArePlanNumbers (numbers_of plan.now) }
    requires groups { groups.now ≡ (organization plan.now).groups }
    ensures { IfOk result (λ ports. ports ≡ logic_ports (organization plan.now)) }
{
    let mut ports = NameList::new(alloc);
    ports.add_macro_inputs(plan)?;
    ports.add(Spelling::Word(b"clkb"))?;
    ports.add_all_bank_controls(plan)?;
    ports.add_column_choices(plan)?;
    ports.add_predecode_lines(groups)?;
    ports.add_numbered(b"d", inputs_of(plan))?;
    ports.add_supplies()?;
    Ok(ports)
}
