ghost use Rattle.std.specs.Prelude.{◌≡◌, ◌++◌, IfOk, OnOk};
ghost use Rattle.sram_netlist.specs.Organization.{banks_of};
ghost use Rattle.sram_netlist.specs.InstanceList.{tabulate};
ghost use Rattle.sram_netlist.specs.Numbers.{ArePlanNumbers};
ghost use Rattle.sram_plan.specs.PlanNumbers.{numbers_of, organization};
ghost use Rattle.sram_deck.specs.Deck.{made_subckt, top_ports, top_logic, top_bank, top_instances};

use crate::top_cell::bank_spelling;
use control_logic::logic_port_list;
use netlist::{Instance, Subckt};
use or_geom::{Memory, Name};
use port_lists::{
    NameList, Spelling, groups_of, part_name, sense_enable, spell, subckt_of, word_line_enable,
};
use sram_plan::{Plan, inputs_of};
use std::alloc::Global;

/// The subcircuit of the macro: the logic row and the banks.
pub fn macro_subckt(alloc: Global, plan: &Plan, name: &Name) -> Result<Subckt, Memory>
    requires { ArePlanNumbers (numbers_of plan.now) }
    ensures { IfOk result (λ s. s ≡ made_subckt name.now (top_ports (organization plan.now))
        (top_instances (organization plan.now) name.now)) }
{
    let groups = groups_of(alloc, plan)?;
    let ports = macro_port_list(alloc, plan)?;
    let mut instances = Vec::new(alloc);
    instances.push(logic_instance(alloc, plan, &groups, name)?)?;
    add_banks(alloc, plan, &groups, name, &mut instances)?;
    Ok(subckt_of(alloc, part_name(alloc, name, b"")?, ports, instances))
}

/// The ports of the macro.
fn macro_port_list(alloc: Global, plan: &Plan) -> Result<NameList, Memory>
    requires { ArePlanNumbers (numbers_of plan.now) }
    ensures { IfOk result (λ ports. ports ≡ top_ports (organization plan.now)) }
{
    let mut ports = NameList::new(alloc);
    ports.add_macro_inputs(plan)?;
    ports.add_indexed(b"dout0", plan.word_size)?;
    ports.add_supplies()?;
    Ok(ports)
}

fn logic_instance(
    alloc: Global,
    plan: &Plan,
    groups: &[u32],
    name: &Name,
) -> Result<Instance, Memory>
    requires numbers { ArePlanNumbers (numbers_of plan.now) }
    requires groups { groups.now ≡ (organization plan.now).groups }
    ensures { IfOk result (λ i. i ≡ top_logic (organization plan.now) name.now) }
{
    Ok(Instance {
        name: Name::from_bytes(alloc, b"xlogic")?,
        nodes: logic_port_list(alloc, plan, groups)?.into_items(),
        of: part_name(alloc, name, b"_logic")?,
    })
}

fn bank_instance(
    alloc: Global,
    plan: &Plan,
    groups: &[u32],
    name: &Name,
    bank: u32,
) -> Result<Instance, Memory>
    requires numbers { ArePlanNumbers (numbers_of plan.now) }
    requires groups { groups.now ≡ (organization plan.now).groups }
    ensures { IfOk result (λ i. i ≡ top_bank (organization plan.now) name.now bank) }
{
    let mut nodes = NameList::new(alloc);
    nodes.add_predecode_lines(groups)?;
    nodes.add(word_line_enable(plan, bank))?;
    nodes.add(sense_enable(plan, bank))?;
    nodes.add(Spelling::Word(b"clkb"))?;
    nodes.add_column_choices(plan)?;
    nodes.add_numbered(b"d", inputs_of(plan))?;
    nodes.add_bank_enables(plan, bank)?;
    nodes.add_indexed(b"dout0", plan.word_size)?;
    nodes.add_supplies()?;
    Ok(Instance {
        name: spell(alloc, bank_spelling(plan, bank))?,
        nodes: nodes.into_items(),
        of: part_name(alloc, name, b"_bank")?,
    })
}

/// The banks, in their order.
fn add_banks(
    alloc: Global,
    plan: &Plan,
    groups: &[u32],
    name: &Name,
    instances: &mut Vec<Instance>,
) -> Result<(), Memory>
    requires numbers { ArePlanNumbers (numbers_of plan.now) }
    requires groups { groups.now ≡ (organization plan.now).groups }
    ensures { OnOk result (instances.new.items ≡ instances.old.items ++ tabulate (banks_of (organization plan.now))
        (top_bank (organization plan.now) name.now)) }
{
    for bank in 0..plan.banks {
        instances.push(bank_instance(alloc, plan, groups, name, bank)?)?;
    }
    Ok(())
}
