ghost use Rattle.std.specs.Prelude.{◌≡◌, ◌≤◌, ℕ, pos, length, IfOk};
ghost use Rattle.cell_roles.specs.declared.role.Role.TheVariants.{Inv};
ghost use Rattle.channel_router.specs.Channel.{IsChannel};
ghost use Rattle.leaf_tables.specs.Kits.{IsKit};
ghost use Rattle.sram_netlist.specs.InstanceList.{tabulate};
ghost use Rattle.sram_netlist.specs.Numbers.{ArePlanNumbers};
ghost use Rattle.sram_plan.specs.PlanNumbers.{numbers_of, organization};
ghost use Rattle.port_lists.specs.Cells.{cell_in};
ghost use Rattle.macro_layout.specs.Channels.{ArePins, LeavesLeft};
ghost use Rattle.macro_layout.specs.Pins.{main_nets};
ghost use Rattle.floorplan.specs.LayoutOfKit.{layout_kit};
ghost use Rattle.control_logic.specs.LogicPart.{IsLogicRow};
ghost use Rattle.floorplan.specs.FloorplanNumbers.{IsNearFloorplan};
ghost use Rattle.main_channel.specs.Formula.{main_exit};
ghost use Rattle.main_channel.specs.Main.{IsNearMainChannel, IsMainChannelAcross, IsMainChannelByFormula};
ghost use Rattle.main_channel.specs.Pins.{AreMainPins};

use crate::bottom::add_row_pins;
use crate::gates::{net_names, port_count};
use crate::names::number_names;
use crate::top::add_bank_pins;
use cell_roles::Role;
use channel_router::{Channel, ChannelPin};
use control_logic::LogicRow;
use floorplan::FloorplanNumbers;
use leaf_tables::{Kit, leaf_of};
use or_geom::{Items, Memory};
use sram_plan::Plan;
use std::alloc::Global;

/// The main channel of a macro: between its logic row, which is `row`, and the banks. Its nets are the macro's signal
/// ports and then the outputs of the logic row. At its upper side stand the rails of each bank, the data and the enable
/// of each write cell and the output of each sense cell; at its lower side the ports of the logic row but for supplies.
/// Each signal port leaves it at the macro's left edge, where x is 0; lengths are nanometres. `Memory`; nothing is
/// refused here: pins that are too close are found when the channel is routed.
pub fn main_channel(
    alloc: Global,
    kit: &Kit,
    plan: &Plan,
    row: &LogicRow,
    floorplan: &FloorplanNumbers,
) -> Result<Channel, Memory>
    requires kit { IsKit kit.now }
    requires plan { ArePlanNumbers (numbers_of plan.now) }
    requires row { IsLogicRow (organization plan.now) (cell_in kit.now.tech.roles) row.now }
    requires near { IsNearFloorplan floorplan.now }
    ensures channel { IfOk result IsChannel }
    ensures few { IfOk result (λ ch. ch.nets ≤ 4096) }
    ensures near { IfOk result IsNearMainChannel }
    ensures nets { IfOk result (λ ch. ch.nets ≡ length (main_nets (organization plan.now))) }
    ensures exits { IfOk result (λ ch. ArePins ch.exits (LeavesLeft (organization plan.now))) }
    ensures low { IfOk result (λ ch. ch.low ≡ pos ((layout_kit kit.now).height Inv)) }
    ensures stated { IfOk result (IsMainChannelAcross kit.now (organization plan.now) floorplan.now) }
    ensures formula { IfOk result (IsMainChannelByFormula kit.now (organization plan.now) floorplan.now) }
{
    let names = net_names(alloc, plan, &row.gates)?;
    let numbers = number_names(alloc, &names)?;
    let ports = port_count(plan);
    let mut top = Vec::new(alloc);
    add_bank_pins(alloc, kit, plan, floorplan, &numbers, &mut top)?;
    let mut bottom = Vec::new(alloc);
    let left = floorplan.logic_x;
    add_row_pins(kit, &numbers, &row.gates, &row.roles, left, &mut bottom)?;
    Ok(Channel {
        low: leaf_of(kit, Role::Inv).height,
        top: Items::from_vec(top),
        bottom: Items::from_vec(bottom),
        exits: exits(alloc, ports)?,
        nets: names.len() as u32,
    })
}

/// The exits of the ports, at the macro's left edge.
fn exits(alloc: Global, ports: u32) -> Result<Items<ChannelPin>, Memory>
    requires { ports ≤ 800 }
    ensures is { IfOk result (λ exits. exits ≡ tabulate ports main_exit) }
    ensures main { IfOk result (λ exits. (nets : ℕ) → ports ≤ nets → AreMainPins nets exits) }
{
    let mut exits = Vec::new(alloc);
    for net in 0..ports {
        exits.push(ChannelPin { x: 0, net })?;
    }
    Ok(Items::from_vec(exits))
}
