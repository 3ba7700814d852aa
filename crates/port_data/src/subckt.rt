ghost use Rattle.std.specs.Prelude.{◌≡◌, ◌++◌, codes, IfOk, OnOk};
ghost use Rattle.sram_netlist.specs.Organization.{columns_of, inputs_of};
ghost use Rattle.sram_netlist.specs.Netlist.{mask_of};
ghost use Rattle.sram_netlist.specs.InstanceList.{tabulate};
ghost use Rattle.sram_netlist.specs.Numbers.{ArePlanNumbers};
ghost use Rattle.sram_plan.specs.PlanNumbers.{numbers_of, organization};
ghost use Rattle.sram_deck.specs.Deck.{made_subckt, lo_name, ro_name, enable_name, data_ports, data_write, data_sense};
ghost use Rattle.sram_deck.specs.Deck.{data_links, data_tie, data_mux, data_instances};
ghost use Rattle.port_lists.specs.Cells.{cell_in};
ghost use Rattle.port_lists.specs.Spelled.{spelled};

use cell_roles::Role;
use netlist::{Instance, Subckt};
use or_geom::{Memory, Name};
use port_lists::{NameList, Spelling, leaf_instance, part_name, subckt_of};
use sram_plan::{Plan, inputs_of};
use std::alloc::Global;
use tech_rules::RoleName;

/// The subcircuit of the data: a write cell for each bit that is written, a sense cell for each bit of the word, and a
/// multiplexer, or a tie where a row has one word, for each column. `roles` names the leaf cells, and `name` is the
/// macro's.
pub fn data_subckt(
    alloc: Global,
    plan: &Plan,
    roles: &[RoleName],
    name: &Name,
) -> Result<Subckt, Memory>
    requires { ArePlanNumbers (numbers_of plan.now) }
    ensures { IfOk result (λ s. s ≡ made_subckt (name.now ++ codes "_data") (data_ports (organization plan.now))
        (data_instances (organization plan.now) (cell_in roles.now))) }
{
    let ports = data_port_list(alloc, plan)?;
    let mut instances = Vec::new(alloc);
    add_writes(alloc, plan, roles, &mut instances)?;
    add_senses(alloc, plan, roles, &mut instances)?;
    add_links(alloc, plan, roles, &mut instances)?;
    Ok(subckt_of(alloc, part_name(alloc, name, b"_data")?, ports, instances))
}

/// The ports of the data.
pub fn data_port_list(alloc: Global, plan: &Plan) -> Result<NameList, Memory>
    requires { ArePlanNumbers (numbers_of plan.now) }
    ensures { IfOk result (λ ports. ports ≡ data_ports (organization plan.now)) }
{
    let mut ports = NameList::new(alloc);
    ports.add_all_bit_lines(plan)?;
    ports.add_column_choices(plan)?;
    ports.add_numbered(b"d", inputs_of(plan))?;
    ports.add_write_enables(plan)?;
    ports.add(Spelling::Word(b"sen"))?;
    ports.add_numbered(b"o", plan.word_size)?;
    ports.add_supplies()?;
    Ok(ports)
}

/// The first line of a bit of the word: its bit line where a row has one word.
fn left_line(plan: &Plan, bit: u32) -> Spelling
    ensures { spelled result ≡ lo_name plan.now.col_bits bit }
{
    if plan.col_bits == 0 {
        Spelling::Numbered(b"bl", bit)
    } else {
        Spelling::Numbered(b"lo", bit)
    }
}

/// The second line of a bit of the word.
fn right_line(plan: &Plan, bit: u32) -> Spelling
    ensures { spelled result ≡ ro_name plan.now.col_bits bit }
{
    if plan.col_bits == 0 {
        Spelling::Numbered(b"br", bit)
    } else {
        Spelling::Numbered(b"ro", bit)
    }
}

/// The write enable of a bit of the word, as a bank names it.
fn write_enable(plan: &Plan, bit: u32) -> Spelling
    requires { ArePlanNumbers (numbers_of plan.now) }
    ensures { spelled result ≡ enable_name plan.now.masks (mask_of plan.now.masks plan.now.write_size bit) }
{
    if plan.masks == 0 {
        Spelling::Word(b"wen")
    } else {
        Spelling::Numbered(b"en", bit / plan.write_size)
    }
}

/// The write cells, one for each bit that is written.
fn add_writes(
    alloc: Global,
    plan: &Plan,
    roles: &[RoleName],
    instances: &mut Vec<Instance>,
) -> Result<(), Memory>
    requires { ArePlanNumbers (numbers_of plan.now) }
    ensures { OnOk result (instances.new.items ≡ instances.old.items ++ tabulate (inputs_of (organization plan.now))
        (data_write (organization plan.now) (cell_in roles.now))) }
{
    for bit in 0..inputs_of(plan) {
        let nodes = [
            Spelling::Numbered(b"d", bit),
            left_line(plan, bit),
            right_line(plan, bit),
            write_enable(plan, bit),
        ];
        let name = Spelling::Numbered(b"xw", bit);
        instances.push(leaf_instance(alloc, roles, Role::Write, name, &nodes)?)?;
    }
    Ok(())
}

/// The sense cells, bit by bit.
fn add_senses(
    alloc: Global,
    plan: &Plan,
    roles: &[RoleName],
    instances: &mut Vec<Instance>,
) -> Result<(), Memory>
    ensures { OnOk result (instances.new.items ≡ instances.old.items ++ tabulate plan.now.word_size
        (data_sense (organization plan.now) (cell_in roles.now))) }
{
    for bit in 0..plan.word_size {
        let nodes = [
            left_line(plan, bit),
            right_line(plan, bit),
            Spelling::Numbered(b"o", bit),
            Spelling::Word(b"sen"),
        ];
        let name = Spelling::Numbered(b"xs", bit);
        instances.push(leaf_instance(alloc, roles, Role::Sense, name, &nodes)?)?;
    }
    Ok(())
}

/// What the columns end in: multiplexers, or ties where a row has one word.
fn add_links(
    alloc: Global,
    plan: &Plan,
    roles: &[RoleName],
    instances: &mut Vec<Instance>,
) -> Result<(), Memory>
    requires { ArePlanNumbers (numbers_of plan.now) }
    ensures { OnOk result (instances.new.items ≡ instances.old.items ++ data_links (organization plan.now)
        (cell_in roles.now) plan.now.col_bits) }
{
    if plan.col_bits == 0 {
        return add_ties(alloc, plan, roles, instances);
    }
    add_multiplexers(alloc, plan, roles, instances)
}

/// The ties, column by column.
fn add_ties(
    alloc: Global,
    plan: &Plan,
    roles: &[RoleName],
    instances: &mut Vec<Instance>,
) -> Result<(), Memory>
    requires { ArePlanNumbers (numbers_of plan.now) }
    ensures { OnOk result (instances.new.items ≡ instances.old.items ++ tabulate (columns_of (organization plan.now))
        (data_tie (cell_in roles.now))) }
{
    for column in 0..plan.columns {
        let nodes = [
            Spelling::Numbered(b"bl", column),
            Spelling::Numbered(b"br", column),
        ];
        let name = Spelling::Numbered(b"xt", column);
        instances.push(leaf_instance(alloc, roles, Role::Tie, name, &nodes)?)?;
    }
    Ok(())
}

/// The multiplexers, column by column. Those of a bit of the word stand side by side, one for each column choice.
fn add_multiplexers(
    alloc: Global,
    plan: &Plan,
    roles: &[RoleName],
    instances: &mut Vec<Instance>,
) -> Result<(), Memory>
    requires { ArePlanNumbers (numbers_of plan.now) }
    ensures { OnOk result (instances.new.items ≡ instances.old.items ++ tabulate (columns_of (organization plan.now))
        (data_mux (organization plan.now) (cell_in roles.now))) }
{
    for column in 0..plan.columns {
        instances.push(multiplexer(alloc, plan, roles, column)?)?;
    }
    Ok(())
}

fn multiplexer(
    alloc: Global,
    plan: &Plan,
    roles: &[RoleName],
    column: u32,
) -> Result<Instance, Memory>
    requires { ArePlanNumbers (numbers_of plan.now) }
    ensures { IfOk result (λ i. i ≡ data_mux (organization plan.now) (cell_in roles.now) column) }
{
    let bit = column / plan.wpr;
    let nodes = [
        Spelling::Numbered(b"bl", column),
        Spelling::Numbered(b"br", column),
        Spelling::Numbered(b"lo", bit),
        Spelling::Numbered(b"ro", bit),
        Spelling::Numbered(b"sel", column % plan.wpr),
    ];
    Ok(leaf_instance(
        alloc,
        roles,
        Role::Mux,
        Spelling::Numbered(b"xm", column),
        &nodes,
    )?)
}
