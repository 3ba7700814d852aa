ghost use Rattle.std.specs.Prelude.{◌≡◌, ◌++◌, ◌≤◌, ◌^◌, map, IfOk, OnOk};
ghost use Rattle.leaf_tables.specs.Kits.{IsKit};
ghost use Rattle.sram_netlist.specs.Organization.{Organization};
ghost use Rattle.sram_netlist.specs.InstanceList.{choice_gates, groups_gates, logic_cells};
ghost use Rattle.sram_netlist.specs.Numbers.{ArePlanNumbers};
ghost use Rattle.sram_plan.specs.PlanNumbers.{numbers_of, organization};
ghost use Rattle.port_lists.specs.Cells.{cell_in};
ghost use Rattle.row_decoder.specs.Gates.{logic_gate};
ghost use Rattle.macro_layout.specs.Places.{total_width};
ghost use Rattle.floorplan.specs.LayoutOfKit.{layout_kit};
ghost use Rattle.control_logic.specs.LogicPart.{IsLogicRow, IsRowOfMemory};

use crate::control::add_control;
use crate::enables::{add_bank_choices, add_write_enable_gates};
use crate::latches::{add_address, add_data_latches, add_mask_latches};
use cell_roles::Role;
use floorplan::leaf_width;
use leaf_tables::Kit;
use netlist::Instance;
use or_geom::Memory;
use row_decoder::{LogicGate, gates as decoder_gates};
use sram_plan::Plan;
use std::alloc::Global;
use tech_rules::RoleName;

/// The logic row of a memory: its gates from the left, each with its nodes and the name of its cell, and the role of
/// each.
#[derive(Drop)]
pub struct LogicRow {
    pub gates: Vec<Instance>,
    pub roles: Vec<Role>,
}

/// Makes the logic row of a memory. Its cell, its subcircuit, its width and its pins follow from this list.
pub fn logic_row(alloc: Global, kit: &Kit, plan: &Plan) -> Result<LogicRow, Memory>
    requires { ArePlanNumbers (numbers_of plan.now) }
    ensures { IfOk result (IsLogicRow (organization plan.now) (cell_in kit.now.tech.roles)) }
{
    let lines = decoder_gates(alloc, kit, plan)?;
    let mut row = Vec::new(alloc);
    add_gates(alloc, plan, kit.tech.roles.as_slice(), lines, &mut row)?;
    Ok(row_of(alloc, row)?)
}

/// Adds the gates of the logic row, in their order; `lines` are those of the decoder.
fn add_gates(
    alloc: Global,
    plan: &Plan,
    roles: &[RoleName],
    lines: Vec<LogicGate>,
    row: &mut Vec<LogicGate>,
) -> Result<(), Memory>
    requires numbers { ArePlanNumbers (numbers_of plan.now) }
    requires lines { lines.items ≡ map (logic_gate (organization plan.now) (cell_in roles.now))
        (choice_gates plan.now.col_bits ++ groups_gates (organization plan.now).groups plan.now.col_bits) }
    ensures { OnOk result (row.new.items
        ≡ row.old.items ++ map (logic_gate (organization plan.now) (cell_in roles.now))
        (logic_cells (organization plan.now))) }
{
    let mut decoder = lines;
    add_control(alloc, plan, roles, row)?;
    add_address(alloc, plan, roles, row)?;
    row.append(&mut decoder)?;
    add_data_latches(alloc, plan, roles, row)?;
    add_mask_latches(alloc, plan, roles, row)?;
    add_bank_choices(alloc, plan, roles, row)?;
    add_write_enable_gates(alloc, plan, roles, row)?;
    Ok(())
}

/// The row of these gates.
fn row_of(alloc: Global, list: Vec<LogicGate>) -> Result<LogicRow, Memory>
    ensures gates { IfOk result (λ row. row.gates.items ≡ map (λ gate. gate.instance) list.items) }
    ensures roles { IfOk result (λ row. row.roles.items ≡ map (λ gate. gate.role) list.items) }
{
    let mut gates = Vec::new(alloc);
    let mut roles = Vec::new(alloc);
    for gate in list {
        roles.push(gate.role)?;
        gates.push(gate.instance)?;
    }
    Ok(LogicRow { gates, roles })
}

/// The width of a logic row, in nanometres: that of the cells of all its roles.
pub fn row_width(kit: &Kit, row: &LogicRow) -> u32
    requires kit { IsKit kit.now }
    requires row { IsRowOfMemory (cell_in kit.now.tech.roles) row.now }
    ensures is { (plan : Organization) → IsLogicRow plan (cell_in kit.now.tech.roles) row.now
        → result ≡ total_width plan (layout_kit kit.now) (logic_cells plan) }
    ensures few { result ≤ 2 ^ 29 }
{
    let mut width = 0;
    for role in row.roles.as_slice() {
        width += leaf_width(kit, *role);
    }
    width
}
