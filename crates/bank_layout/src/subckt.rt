ghost use Rattle.std.specs.Prelude.{◌≡◌, ◌++◌, codes, IfOk};
ghost use Rattle.sram_netlist.specs.Numbers.{ArePlanNumbers};
ghost use Rattle.sram_plan.specs.PlanNumbers.{numbers_of, organization};
ghost use Rattle.sram_deck.specs.Deck.{made_subckt, bank_ports, bank_array, bank_pre, bank_data, bank_instances};

use bitcell_array::{array_port_list, precharge_port_list};
use netlist::{Instance, Subckt};
use or_geom::{Memory, Name};
use port_data::data_port_list;
use port_lists::{NameList, Spelling, groups_of, part_name, subckt_of};
use sram_plan::{Plan, inputs_of};
use std::alloc::Global;

/// The subcircuit of a bank: the array, the precharge and the data. `name` is the macro's.
pub fn bank_subckt(alloc: Global, plan: &Plan, name: &Name) -> Result<Subckt, Memory>
    requires { ArePlanNumbers (numbers_of plan.now) }
    ensures { IfOk result (λ s. s ≡ made_subckt (name.now ++ codes "_bank") (bank_ports (organization plan.now))
        (bank_instances (organization plan.now) name.now)) }
{
    let groups = groups_of(alloc, plan)?;
    let ports = bank_port_list(alloc, plan, &groups)?;
    let mut instances = Vec::new(alloc);
    instances.push(array_instance(alloc, plan, &groups, name)?)?;
    instances.push(precharge_instance(alloc, plan, name)?)?;
    instances.push(data_instance(alloc, plan, name)?)?;
    Ok(subckt_of(alloc, part_name(alloc, name, b"_bank")?, ports, instances))
}

/// The ports of a bank.
fn bank_port_list(alloc: Global, plan: &Plan, groups: &[u32]) -> Result<NameList, Memory>
    requires numbers { ArePlanNumbers (numbers_of plan.now) }
    requires groups { groups.now ≡ (organization plan.now).groups }
    ensures { IfOk result (λ ports. ports ≡ bank_ports (organization plan.now)) }
{
    let mut ports = NameList::new(alloc);
    ports.add_predecode_lines(groups)?;
    ports.add_all(&[
        Spelling::Word(b"wlen"),
        Spelling::Word(b"sen"),
        Spelling::Word(b"clkb"),
    ])?;
    ports.add_column_choices(plan)?;
    ports.add_numbered(b"d", inputs_of(plan))?;
    ports.add_write_enables(plan)?;
    ports.add_numbered(b"o", plan.word_size)?;
    ports.add_supplies()?;
    Ok(ports)
}

fn array_instance(
    alloc: Global,
    plan: &Plan,
    groups: &[u32],
    name: &Name,
) -> Result<Instance, Memory>
    requires numbers { ArePlanNumbers (numbers_of plan.now) }
    requires groups { groups.now ≡ (organization plan.now).groups }
    ensures { IfOk result (λ i. i ≡ bank_array (organization plan.now) name.now) }
{
    Ok(Instance {
        name: Name::from_bytes(alloc, b"xarray")?,
        nodes: array_port_list(alloc, plan, groups)?.into_items(),
        of: part_name(alloc, name, b"_array")?,
    })
}

fn precharge_instance(alloc: Global, plan: &Plan, name: &Name) -> Result<Instance, Memory>
    requires { ArePlanNumbers (numbers_of plan.now) }
    ensures { IfOk result (λ i. i ≡ bank_pre (organization plan.now) name.now) }
{
    Ok(Instance {
        name: Name::from_bytes(alloc, b"xpre")?,
        nodes: precharge_port_list(alloc, plan)?.into_items(),
        of: part_name(alloc, name, b"_pre")?,
    })
}

fn data_instance(alloc: Global, plan: &Plan, name: &Name) -> Result<Instance, Memory>
    requires { ArePlanNumbers (numbers_of plan.now) }
    ensures { IfOk result (λ i. i ≡ bank_data (organization plan.now) name.now) }
{
    Ok(Instance {
        name: Name::from_bytes(alloc, b"xdata")?,
        nodes: data_port_list(alloc, plan)?.into_items(),
        of: part_name(alloc, name, b"_data")?,
    })
}
