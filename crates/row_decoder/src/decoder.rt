ghost use Rattle.std.specs.Prelude.{◌≡◌, ◌++◌, map, IfOk, OnOk};
ghost use Rattle.sram_netlist.specs.InstanceList.{choice_gates, groups_gates};
ghost use Rattle.sram_netlist.specs.Numbers.{ArePlanNumbers};
ghost use Rattle.sram_plan.specs.PlanNumbers.{numbers_of, organization};
ghost use Rattle.port_lists.specs.Cells.{cell_in};
ghost use Rattle.row_decoder.specs.Gates.{logic_gate};

use crate::gate::LogicGate;
use crate::lines::{LineChoice, Lines, add_lines};
use leaf_tables::Kit;
use or_geom::Memory;
use port_lists::groups_of;
use sram_plan::Plan;
use std::alloc::Global;
use tech_rules::RoleName;

/// The gates of the column choices and then of the predecode lines, group by group, in the order of the logic row.
pub fn gates(alloc: Global, kit: &Kit, plan: &Plan) -> Result<Vec<LogicGate>, Memory>
    requires { ArePlanNumbers (numbers_of plan.now) }
    ensures { IfOk result (λ gates. gates.items ≡ map (logic_gate (organization plan.now) (cell_in kit.now.tech.roles))
        (choice_gates plan.now.col_bits ++ groups_gates (organization plan.now).groups plan.now.col_bits)) }
{
    let roles = kit.tech.roles.as_slice();
    let groups = groups_of(alloc, plan)?;
    let mut gates = Vec::new(alloc);
    add_column_lines(alloc, plan, roles, &mut gates)?;
    add_group_lines(alloc, plan, roles, &groups, &mut gates)?;
    Ok(gates)
}

/// The gates of the column choices, where a row has several words.
fn add_column_lines(
    alloc: Global,
    plan: &Plan,
    roles: &[RoleName],
    row: &mut Vec<LogicGate>,
) -> Result<(), Memory>
    requires { ArePlanNumbers (numbers_of plan.now) }
    ensures { OnOk result (row.new.items
        ≡ row.old.items ++ map (logic_gate (organization plan.now) (cell_in roles.now))
        (choice_gates plan.now.col_bits)) }
{
    if plan.col_bits == 0 {
        return Ok(());
    }
    let lines = Lines {
        choice: LineChoice::Column,
        low: 0,
        bits: plan.col_bits,
    };
    add_lines(alloc, plan, roles, lines, row)?;
    Ok(())
}

/// The gates of the predecode lines, group by group.
fn add_group_lines(
    alloc: Global,
    plan: &Plan,
    roles: &[RoleName],
    groups: &[u32],
    row: &mut Vec<LogicGate>,
) -> Result<(), Memory>
    requires numbers { ArePlanNumbers (numbers_of plan.now) }
    requires groups { groups.now ≡ (organization plan.now).groups }
    ensures { OnOk result (row.new.items
        ≡ row.old.items ++ map (logic_gate (organization plan.now) (cell_in roles.now))
        (groups_gates groups.now plan.now.col_bits)) }
{
    let mut group = 0;
    let mut low = plan.col_bits;
    let mut rest = groups;
    while let Some((bits, others)) = rest.split_first() {
        let lines = Lines {
            choice: LineChoice::Group(group),
            low,
            bits: *bits,
        };
        add_lines(alloc, plan, roles, lines, row)?;
        group += 1;
        low += *bits;
        rest = others;
    }
    Ok(())
}
