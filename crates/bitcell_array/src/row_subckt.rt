ghost use Rattle.std.specs.Prelude.{◌≡◌, ◌<◌, ◌⊎◌, ◌++◌, ◌∷◌, codes, length, IfOk, OnOk};
ghost use Rattle.cell_roles.specs.Roles.{supplies};
ghost use Rattle.sram_netlist.specs.Organization.{bank_rows, columns_of};
ghost use Rattle.sram_netlist.specs.Netlist.{row_gate};
ghost use Rattle.sram_netlist.specs.InstanceList.{tabulate};
ghost use Rattle.sram_netlist.specs.Numbers.{ArePlanNumbers};
ghost use Rattle.sram_plan.specs.PlanNumbers.{numbers_of, organization};
ghost use Rattle.sram_deck.specs.Deck.{subckt_instance, row_inputs, row_ports, row_driver, row_bit, row_subckt};
ghost use Rattle.port_lists.specs.Cells.{cell_in};
ghost use Rattle.port_lists.specs.Contents.{IsContents, bit_cells};

use cell_roles::Role;
use netlist::{Instance, Subckt};
use or_geom::{Memory, Name};
use port_lists::{
    Contents, NameList, Spelling, bit_cell, cell_instance, cell_of, groups_of, leaf_instance,
    row_gate_role, row_name, subckt_of,
};
use sram_plan::Plan;
use std::alloc::Global;
use tech_rules::RoleName;

/// The subcircuit of a row: its gate, its driver and the cells of its bits. `roles` names the leaf cells, and `name` is
/// the macro's.
pub fn row_subckt(
    alloc: Global,
    plan: &Plan,
    roles: &[RoleName],
    name: &Name,
    contents: Contents<'_>,
    row: u32,
) -> Result<Subckt, Memory>
    requires numbers { ArePlanNumbers (numbers_of plan.now) }
    requires contents { IsContents (organization plan.now) contents }
    requires row { row < bank_rows (organization plan.now) }
    ensures { IfOk result (λ s. s ≡ row_subckt (organization plan.now) (cell_in roles.now)
        (bit_cells roles.now (organization plan.now) contents.entry) name.now row) }
{
    let groups = groups_of(alloc, plan)?;
    let ports = row_port_list(alloc, plan, &groups)?;
    let mut instances = Vec::new(alloc);
    instances.push(row_gate_instance(alloc, &groups, roles)?)?;
    instances.push(row_driver_instance(alloc, roles)?)?;
    add_bits(alloc, plan, roles, contents, row, &mut instances)?;
    let name = row_name(alloc, plan, contents, name, row)?;
    Ok(subckt_of(alloc, name, ports, instances))
}

/// The ports of a row.
fn row_port_list(alloc: Global, plan: &Plan, groups: &[u32]) -> Result<NameList, Memory>
    requires numbers { ArePlanNumbers (numbers_of plan.now) }
    requires groups { groups.now ≡ (organization plan.now).groups }
    ensures { IfOk result (λ ports. ports ≡ row_ports (organization plan.now)) }
{
    let mut ports = NameList::new(alloc);
    ports.add_row_inputs(groups.len())?;
    ports.add(Spelling::Word(b"wlen"))?;
    ports.add_all_bit_lines(plan)?;
    ports.add_supplies()?;
    Ok(ports)
}

/// The gate of a row, over so many predecode lines as there are groups.
fn row_gate_instance(alloc: Global, groups: &[u32], roles: &[RoleName]) -> Result<Instance, Memory>
    requires { (length groups.now ≡ 2) ⊎ (length groups.now ≡ 3) }
    ensures { IfOk result (λ i. i ≡ subckt_instance (codes "xnand")
        (row_inputs 97 groups.now ++ (codes "zb" ∷ supplies)) (cell_in roles.now (row_gate groups.now))) }
{
    let role = row_gate_role(groups);
    let mut nodes = NameList::new(alloc);
    nodes.add_row_inputs(groups.len())?;
    nodes.add(Spelling::Word(b"zb"))?;
    nodes.add_supplies()?;
    Ok(Instance {
        name: Name::from_bytes(alloc, b"xnand")?,
        nodes: nodes.into_items(),
        of: Name::from_bytes(alloc, cell_of(roles, role))?,
    })
}

fn row_driver_instance(alloc: Global, roles: &[RoleName]) -> Result<Instance, Memory>
    ensures { IfOk result (λ i. i ≡ row_driver (cell_in roles.now)) }
{
    let nodes = [
        Spelling::Word(b"zb"),
        Spelling::Word(b"wlen"),
        Spelling::Word(b"wl"),
    ];
    leaf_instance(alloc, roles, Role::Driver, Spelling::Word(b"xdrv"), &nodes)
}

/// The cells of a row's bits, column by column.
fn add_bits(
    alloc: Global,
    plan: &Plan,
    roles: &[RoleName],
    contents: Contents<'_>,
    row: u32,
    instances: &mut Vec<Instance>,
) -> Result<(), Memory>
    requires numbers { ArePlanNumbers (numbers_of plan.now) }
    requires contents { IsContents (organization plan.now) contents }
    requires row { row < bank_rows (organization plan.now) }
    ensures { OnOk result (instances.new.items ≡ instances.old.items ++ tabulate (columns_of (organization plan.now))
        (row_bit (bit_cells roles.now (organization plan.now) contents.entry) row)) }
{
    for column in 0..plan.columns {
        let nodes = [
            Spelling::Numbered(b"bl", column),
            Spelling::Numbered(b"br", column),
            Spelling::Word(b"wl"),
        ];
        let name = Spelling::Numbered(b"xb", column);
        let cell = bit_cell(plan, roles, contents, row, column);
        instances.push(cell_instance(alloc, cell, name, &nodes)?)?;
    }
    Ok(())
}
