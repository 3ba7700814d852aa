ghost use Rattle.std.specs.Prelude.{◌≡◌, ◌++◌, List, codes, IfOk, OnOk};
ghost use Rattle.sram_netlist.specs.Numbers.{ArePlanNumbers};
ghost use Rattle.sram_plan.specs.PlanNumbers.{numbers_of, organization};
ghost use Rattle.sram_deck.specs.Deck.{made_subckt, array_ports, array_row, array_instances, pre_ports};
ghost use Rattle.sram_deck.specs.Deck.{pre_instances};
ghost use Rattle.tech_rules.specs.declared.tech.RoleName.{RoleName};
ghost use Rattle.port_lists.specs.Cells.{cell_in};
ghost use Rattle.port_lists.specs.Contents.{bit_cells};

use cell_roles::Role;
use netlist::{Instance, Subckt};
use or_geom::{Memory, Name};
use port_lists::{
    Contents, NameList, Spelling, groups_of, leaf_instance, part_name, row_name, spell, subckt_of,
};
use sram_plan::Plan;
use std::alloc::Global;
use tech_rules::RoleName;

/// The subcircuit of the array: its rows. `name` is the macro's.
pub fn array_subckt(
    alloc: Global,
    plan: &Plan,
    name: &Name,
    contents: Contents<'_>,
) -> Result<Subckt, Memory>
    requires { ArePlanNumbers (numbers_of plan.now) }
    ensures { IfOk result (λ s. (roles : List RoleName)
        → s ≡ made_subckt (name.now ++ codes "_array") (array_ports (organization plan.now))
        (array_instances (organization plan.now) (bit_cells roles (organization plan.now) contents.entry) name.now)) }
{
    let groups = groups_of(alloc, plan)?;
    let ports = array_port_list(alloc, plan, &groups)?;
    let mut instances = Vec::new(alloc);
    add_rows(alloc, plan, &groups, name, contents, &mut instances)?;
    Ok(subckt_of(alloc, part_name(alloc, name, b"_array")?, ports, instances))
}

/// The ports of the array.
pub fn array_port_list(alloc: Global, plan: &Plan, groups: &[u32]) -> Result<NameList, Memory>
    requires numbers { ArePlanNumbers (numbers_of plan.now) }
    requires groups { groups.now ≡ (organization plan.now).groups }
    ensures { IfOk result (λ ports. ports ≡ array_ports (organization plan.now)) }
{
    let mut ports = NameList::new(alloc);
    ports.add_predecode_lines(groups)?;
    ports.add(Spelling::Word(b"wlen"))?;
    ports.add_all_bit_lines(plan)?;
    ports.add_supplies()?;
    Ok(ports)
}

/// The rows of the array, from the lowest up.
fn add_rows(
    alloc: Global,
    plan: &Plan,
    groups: &[u32],
    name: &Name,
    contents: Contents<'_>,
    instances: &mut Vec<Instance>,
) -> Result<(), Memory>
    requires numbers { ArePlanNumbers (numbers_of plan.now) }
    requires groups { groups.now ≡ (organization plan.now).groups }
    ensures { OnOk result ((roles : List RoleName)
        → instances.new.items ≡ instances.old.items ++ array_instances (organization plan.now)
        (bit_cells roles (organization plan.now) contents.entry) name.now) }
{
    for row in 0..plan.rows {
        instances.push(row_instance(alloc, plan, groups, name, contents, row)?)?;
    }
    Ok(())
}

/// A row of the array.
fn row_instance(
    alloc: Global,
    plan: &Plan,
    groups: &[u32],
    name: &Name,
    contents: Contents<'_>,
    row: u32,
) -> Result<Instance, Memory>
    requires numbers { ArePlanNumbers (numbers_of plan.now) }
    requires groups { groups.now ≡ (organization plan.now).groups }
    ensures { IfOk result (λ i. (roles : List RoleName)
        → i ≡ array_row (organization plan.now) (bit_cells roles (organization plan.now) contents.entry) name.now row) }
{
    let mut nodes = NameList::new(alloc);
    nodes.add_row_lines(groups, row)?;
    nodes.add(Spelling::Word(b"wlen"))?;
    nodes.add_all_bit_lines(plan)?;
    nodes.add_supplies()?;
    Ok(Instance {
        name: spell(alloc, Spelling::Numbered(b"xr", row))?,
        nodes: nodes.into_items(),
        of: row_name(alloc, plan, contents, name, row)?,
    })
}

/// The subcircuit of the precharge: a cell for each column. `roles` names the leaf cells, and `name` is the macro's.
pub fn precharge_subckt(
    alloc: Global,
    plan: &Plan,
    roles: &[RoleName],
    name: &Name,
) -> Result<Subckt, Memory>
    requires { ArePlanNumbers (numbers_of plan.now) }
    ensures { IfOk result (λ s. s ≡ made_subckt (name.now ++ codes "_pre") (pre_ports (organization plan.now))
        (pre_instances (organization plan.now) (cell_in roles.now))) }
{
    let ports = precharge_port_list(alloc, plan)?;
    let mut instances = Vec::new(alloc);
    add_precharges(alloc, plan, roles, &mut instances)?;
    Ok(subckt_of(alloc, part_name(alloc, name, b"_pre")?, ports, instances))
}

/// The ports of the precharge.
pub fn precharge_port_list(alloc: Global, plan: &Plan) -> Result<NameList, Memory>
    requires { ArePlanNumbers (numbers_of plan.now) }
    ensures { IfOk result (λ ports. ports ≡ pre_ports (organization plan.now)) }
{
    let mut ports = NameList::new(alloc);
    ports.add_all_bit_lines(plan)?;
    ports.add(Spelling::Word(b"clkb"))?;
    ports.add_supplies()?;
    Ok(ports)
}

/// The precharge cells, column by column.
fn add_precharges(
    alloc: Global,
    plan: &Plan,
    roles: &[RoleName],
    instances: &mut Vec<Instance>,
) -> Result<(), Memory>
    requires { ArePlanNumbers (numbers_of plan.now) }
    ensures { OnOk result (instances.new.items ≡ instances.old.items ++ pre_instances (organization plan.now)
        (cell_in roles.now)) }
{
    for column in 0..plan.columns {
        let nodes = [
            Spelling::Numbered(b"bl", column),
            Spelling::Numbered(b"br", column),
            Spelling::Word(b"clkb"),
        ];
        let name = Spelling::Numbered(b"xp", column);
        instances.push(leaf_instance(alloc, roles, Role::Precharge, name, &nodes)?)?;
    }
    Ok(())
}
