ghost use Rattle.std.specs.Prelude.{◌≡◌, Some, IfOk, IfErr};
ghost use Rattle.leaf_tables.specs.Kits.{IsKit};
ghost use Rattle.tech_rules.specs.declared.tech.Wire.{Wire};
ghost use Rattle.tech_rules.specs.Facts.{AreSizes};
ghost use Rattle.sram_netlist.specs.Numbers.{ArePlanNumbers};
ghost use Rattle.sram_plan.specs.PlanNumbers.{numbers_of, organization};
ghost use Rattle.floorplan.specs.LayoutOfKit.{layout_kit};
ghost use Rattle.port_data.specs.Column.{IsColumnOf, IsColumnFault};
ghost use Rattle.port_data.specs.Pins.{column_channel};

use crate::bottom::bottom_pins;
use crate::columns::columns_in;
use crate::exits::{drive_width, exit_pins};
use crate::top::top_pins;
use cell_roles::Role;
use channel_router::{Channel, Routed, route};
use floorplan::{leaf_height, write_height};
use leaf_tables::{Kit, PartFault, wire_of};
use or_geom::{Items, Memory};
use sram_plan::Plan;
use std::alloc::Global;
use tech_rules::Wire;

/// The column channel, from the left end of the columns and the lower edge of the data.
fn column_channel(alloc: Global, kit: &Kit, plan: &Plan, wire: &Wire) -> Result<Channel, Memory>
    requires kit { IsKit kit.now }
    requires plan { ArePlanNumbers (numbers_of plan.now) }
    requires sizes { AreSizes wire.now }
    ensures { IfOk result (λ ch. ch ≡ column_channel (organization plan.now) (layout_kit kit.now) wire.now) }
{
    let columns = columns_in(kit, plan);
    let drive = drive_width(alloc, kit, plan)?;
    let top = top_pins(alloc, kit, plan.col_bits, &columns)?;
    let bottom = bottom_pins(alloc, kit, &columns)?;
    let exits = exit_pins(alloc, columns.choices, drive, wire)?;
    let low = write_height(kit, plan) + leaf_height(kit, Role::Sense);
    Ok(Channel {
        low: i64::from(low),
        top: Items::from_vec(top),
        bottom: Items::from_vec(bottom),
        exits: Items::from_vec(exits),
        nets: columns.choices + 2 * columns.bits,
    })
}

/// Routes the channel between the sense cells and the multiplexers, or ties where a row has one word. The lines of each
/// bit lead from its columns down to its sense cell, and the column choices from the multiplexers to their rails. x
/// counts from the left end of the columns and y from the lower edge of the data, in nanometres. `Close`: two pins of
/// one side are nearer to each other than the pitch; `Memory`. Nothing else is refused.
pub fn channel(alloc: Global, kit: &Kit, plan: &Plan) -> Result<Routed, PartFault>
    requires kit { IsKit kit.now }
    requires plan { ArePlanNumbers (numbers_of plan.now) }
    ensures column { IfOk result (IsColumnOf kit.now (organization plan.now)) }
    ensures fault { IfErr result (λ fault. (wire : Wire) → kit.now.tech.wire ≡ Some wire
        → IsColumnFault (organization plan.now) (layout_kit kit.now) wire fault) }
{
    let wire = wire_of(kit);
    let meant = column_channel(alloc, kit, plan, wire)?;
    Ok(route(alloc, &meant, wire)?)
}
