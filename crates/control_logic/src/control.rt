ghost use Rattle.std.specs.Prelude.{◌≡◌, ◌++◌, ◌∷◌, [], map, OnOk};
ghost use Rattle.sram_netlist.specs.InstanceList.{fixed_cells};
ghost use Rattle.sram_netlist.specs.Names.{net_name};
ghost use Rattle.sram_netlist.specs.Netlist.{sense_start};
ghost use Rattle.sram_plan.specs.PlanNumbers.{organization};
ghost use Rattle.port_lists.specs.Cells.{cell_in};
ghost use Rattle.row_decoder.specs.Gates.{gate_of_role, logic_gate};
ghost use Rattle.control_logic.specs.ControlGates.{where_written};

use cell_roles::Role;
use or_geom::Memory;
use port_lists::Spelling;
use row_decoder::{LogicGate, add_gate};
use sram_plan::Plan;
use std::alloc::Global;
use tech_rules::RoleName;

/// Adds the gates of clock and control of a memory in which so many bits are written at once. Their names and their
/// nets are words.
#[derive(Clone, Copy)]
struct GateAdder<'a> {
    alloc: Global,
    roles: &'a [RoleName],
    write_size: u32,
}

impl GateAdder<'_> {
    /// Adds a gate of the role; `nets` are those before the supplies.
    fn add(
        &self,
        role: Role,
        name: &'static [u8],
        nets: &[&'static [u8]],
        row: &mut Vec<LogicGate>,
    ) -> Result<(), Memory>
        ensures { OnOk result (row.new.items ≡ row.old.items
            ++ gate_of_role (cell_in self.now.roles.now) role name.now (map (λ net. net.now) nets.now) ∷ []) }
    {
        let mut nodes = Vec::with_capacity(self.alloc, nets.len())?;
        for net in nets {
            nodes.push(Spelling::Word(net))?;
        }
        let name = Spelling::Word(name);
        add_gate(self.alloc, self.roles, role, name, &nodes, row)
    }

    /// Adds a gate of the role to a memory that is written, and none to one that is only read.
    fn add_of_write(
        &self,
        role: Role,
        name: &'static [u8],
        nets: &[&'static [u8]],
        row: &mut Vec<LogicGate>,
    ) -> Result<(), Memory>
        ensures { OnOk result (row.new.items ≡ row.old.items ++ where_written self.now.write_size
            (gate_of_role (cell_in self.now.roles.now) role name.now (map (λ net. net.now) nets.now))) }
    {
        if self.write_size == 0 {
            return Ok(());
        }
        self.add(role, name, nets, row)
    }
}

/// The cells of clock and control, which a memory has once.
pub fn add_control(
    alloc: Global,
    plan: &Plan,
    roles: &[RoleName],
    row: &mut Vec<LogicGate>,
) -> Result<(), Memory>
    ensures { OnOk result (row.new.items
        ≡ row.old.items ++ map (logic_gate (organization plan.now) (cell_in roles.now))
        (fixed_cells plan.now.write_size)) }
{
    let start = sense_start(plan);
    let gates = GateAdder {
        alloc,
        roles,
        write_size: plan.write_size,
    };
    // The inverted clock, and what the latches hold of the select and of the port that tells reads from writes.
    gates.add(Role::Inv, b"xclki", &[b"clk0", b"clkb"], row)?;
    gates.add(Role::Dff, b"xcsd", &[b"csb0", b"clk0", b"csq"], row)?;
    gates.add_of_write(Role::Dff, b"xwed", &[b"web0", b"clk0", b"weq"], row)?;
    gates.add(Role::Inv, b"xcsi", &[b"csq", b"cs"], row)?;
    gates.add_of_write(Role::Inv, b"xwei", &[b"weq", b"we"], row)?;
    // The enable of the word lines.
    gates.add(Role::Nand2, b"xwln", &[b"cs", b"clkb", b"wlb"], row)?;
    gates.add(Role::Inv, b"xwli", &[b"wlb", b"wlen"], row)?;
    // The enable of a write, and that a read is asked for.
    gates.add_of_write(Role::Nand3, b"xwrn", &[b"cs", b"we", b"clkb", b"wrb"], row)?;
    gates.add_of_write(Role::Inv, b"xwri", &[b"wrb", b"wen"], row)?;
    gates.add_of_write(Role::Nand3, b"xrdn", &[b"cs", b"weq", b"clkb", b"rdb"], row)?;
    gates.add_of_write(Role::Inv, b"xrdi", &[b"rdb", b"rd"], row)?;
    // The enable of the sense amplifiers, which comes a phase after that of the word lines.
    gates.add(Role::Delay, b"xdly", &[b"clkb", b"dly"], row)?;
    gates.add(Role::Nand2, b"xsen", &[start, b"dly", b"seb"], row)?;
    gates.add(Role::Inv, b"xsei", &[b"seb", b"sen"], row)?;
    Ok(())
}

/// What starts the sense enable: a read, or where nothing is written the word line enable.
fn sense_start(plan: &Plan) -> &'static [u8]
    ensures { result.now ≡ net_name (organization plan.now) (sense_start plan.now.write_size) }
{
    if plan.write_size == 0 { b"wlen" } else { b"rd" }
}
