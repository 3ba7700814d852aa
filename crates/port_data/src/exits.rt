ghost use Rattle.std.specs.Prelude.{◌≡◌, ◌≤◌, pos, IfOk};
ghost use Rattle.leaf_tables.specs.Kits.{IsKit};
ghost use Rattle.sram_netlist.specs.Numbers.{ArePlanNumbers};
ghost use Rattle.sram_netlist.specs.InstanceList.{tabulate};
ghost use Rattle.sram_plan.specs.PlanNumbers.{numbers_of, organization};
ghost use Rattle.tech_rules.specs.Facts.{AreSizes};
ghost use Rattle.wire_drawing.specs.Drawing.{pitch};
ghost use Rattle.macro_layout.specs.Places.{drive_width};
ghost use Rattle.floorplan.specs.LayoutOfKit.{layout_kit};
ghost use Rattle.port_data.specs.Pins.{exit_at, IsDriveWidth};

use cell_roles::Role;
use channel_router::ChannelPin;
use floorplan::leaf_width;
use leaf_tables::Kit;
use or_geom::Memory;
use port_lists::{groups_of, row_gate_role};
use sram_plan::Plan;
use std::alloc::Global;
use tech_rules::Wire;

/// The width of a row's gate and driver, behind which the columns begin.
pub fn drive_width(alloc: Global, kit: &Kit, plan: &Plan) -> Result<u32, Memory>
    requires kit { IsKit kit.now }
    requires plan { ArePlanNumbers (numbers_of plan.now) }
    ensures { IfOk result (λ width. IsDriveWidth (organization plan.now) (layout_kit kit.now) width) }
{
    let groups = groups_of(alloc, plan)?;
    Ok(leaf_width(kit, row_gate_role(&groups)) + leaf_width(kit, Role::Driver))
}

/// The distance from a wire's edge to the same edge of the next wire.
fn pitch(wire: &Wire) -> u32
    requires { AreSizes wire.now }
    ensures value { pos result ≡ pitch wire.now }
    ensures few { result ≤ 131072 }
{
    (wire.width + wire.space) as u32
}

/// Where a column choice leaves: at its rail. The rails of the choices are the last ones before the rows begin.
fn exit_at(choices: u32, drive: u32, wire: &Wire, choice: u32) -> ChannelPin
    requires sizes { AreSizes wire.now }
    requires choices { choices ≤ 8 }
    requires drive { drive ≤ 131072 }
    requires choice { choice ≤ choices }
    ensures { result ≡ exit_at choices drive (pitch wire.now) choice }
{
    let distance = (choices - choice) * pitch(wire) + drive;
    ChannelPin {
        x: -i64::from(distance),
        net: choice,
    }
}

/// The exits of all column choices.
pub fn exit_pins(
    alloc: Global,
    choices: u32,
    drive: u32,
    wire: &Wire,
) -> Result<Vec<ChannelPin>, Memory>
    requires sizes { AreSizes wire.now }
    requires choices { choices ≤ 8 }
    requires drive { drive ≤ 131072 }
    ensures { IfOk result (λ pins. pins.items ≡ tabulate choices (exit_at choices drive (pitch wire.now))) }
{
    let mut pins = Vec::new(alloc);
    for choice in 0..choices {
        pins.push(exit_at(choices, drive, wire, choice))?;
    }
    Ok(pins)
}
