ghost use Rattle.std.specs.Prelude.{◌≡◌, ◌++◌, ◌≤◌, map, length, IfOk, OnOk};
ghost use Rattle.sram_netlist.specs.Organization.{written_bits};
ghost use Rattle.sram_netlist.specs.Numbers.{ArePlanNumbers};
ghost use Rattle.sram_plan.specs.PlanNumbers.{numbers_of, organization};
ghost use Rattle.main_channel.specs.Names.{output_name, AreGates, channel_names, port_count};

use netlist::Instance;
use or_geom::{Memory, Name};
use port_lists::NameList;
use sram_plan::{Plan, inputs_of};
use std::alloc::Global;

/// How many signal ports the macro has.
pub fn port_count(plan: &Plan) -> u32
    requires { ArePlanNumbers (numbers_of plan.now) }
    ensures is { result ≡ port_count (organization plan.now) }
    ensures few { result ≤ 800 }
{
    2 + web_count(plan) + plan.masks + plan.addr_bits + inputs_of(plan) + plan.word_size
}

/// How many of them tell reads from writes: one, or none where nothing is written.
fn web_count(plan: &Plan) -> u32
    ensures { result ≡ written_bits plan.now.write_size 1 }
{
    if plan.write_size == 0 { 0 } else { 1 }
}

/// The names of the channel's nets: the macro's signal ports, and then the outputs of the logic row.
pub fn net_names(alloc: Global, plan: &Plan, gates: &[Instance]) -> Result<Vec<Name>, Memory>
    requires plan { ArePlanNumbers (numbers_of plan.now) }
    requires gates { AreGates gates.now }
    ensures { IfOk result (λ names. names.items ≡ channel_names (organization plan.now) gates.now) }
{
    let mut ports = NameList::new(alloc);
    ports.add_macro_inputs(plan)?;
    ports.add_indexed(b"dout0", plan.word_size)?;
    let mut names = ports.into_items().into_vec();
    add_outputs(alloc, gates, &mut names)?;
    Ok(names)
}

/// Adds the name of each cell's output.
fn add_outputs(alloc: Global, gates: &[Instance], names: &mut Vec<Name>) -> Result<(), Memory>
    requires { AreGates gates.now }
    ensures { OnOk result (names.new.items ≡ names.old.items ++ map output_name gates.now) }
{
    let mut rest = gates;
    while let Some((gate, others)) = rest.split_first() {
        names.push(Name::from_bytes(alloc, output_of(gate))?)?;
        rest = others;
    }
    Ok(())
}

/// The name of a cell's output: the last of its nodes before the supplies.
fn output_of(gate: &Instance) -> &[u8]
    requires { 3 ≤ length gate.now.nodes }
    ensures { result.now ≡ output_name gate.now }
{
    let nodes = gate.nodes.as_slice();
    nodes[nodes.len() - 3].as_bytes()
}
