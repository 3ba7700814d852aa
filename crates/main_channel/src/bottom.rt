ghost use Rattle.std.specs.Prelude.{◌≡◌, ◌++◌, ◌-◌, ◌≤◌, ◌^◌, ℕ, length, OnOk};
ghost use Rattle.leaf_shapes.specs.Demands.{role_demands};
ghost use Rattle.leaf_tables.specs.Kits.{IsKit};
ghost use Rattle.floorplan.specs.LeafSides.{leaf_width};
ghost use Rattle.floorplan.specs.FloorplanNumbers.{IsUpTo};
ghost use Rattle.main_channel.specs.Leaves.{pin_begin};
ghost use Rattle.main_channel.specs.Numbers.{found_number, IsNetNumbering};
ghost use Rattle.main_channel.specs.Pins.{AreMainPins};
ghost use Rattle.main_channel.specs.Row.{FitRoles, cell_channel_pins, row_pins};

use crate::names::NetNumbers;
use crate::pins::add_leaf_pin;
use cell_roles::Role;
use channel_router::ChannelPin;
use leaf_tables::{Kit, leaf_of};
use netlist::Instance;
use or_geom::Memory;

/// Adds the pins of the cells of the logic row, which stand side by side from `logic_x` on.
pub fn add_row_pins(
    kit: &Kit,
    numbers: &NetNumbers,
    gates: &[Instance],
    roles: &[Role],
    logic_x: i64,
    pins: &mut Vec<ChannelPin>,
) -> Result<(), Memory>
    requires kit { IsKit kit.now }
    requires fit { FitRoles gates.now roles.now }
    requires few { length gates.now ≤ 3000 }
    requires x { IsUpTo (2 ^ 17) logic_x }
    ensures is { OnOk result (pins.new.items ≡ pins.old.items ++ row_pins (pin_begin kit.now) (leaf_width kit.now)
        (found_number numbers.now) gates.now roles.now logic_x) }
    ensures main { OnOk result ((nets : ℕ) → IsNetNumbering nets (found_number numbers.now)
        → AreMainPins nets pins.old.items → AreMainPins nets pins.new.items) }
{
    let mut x = logic_x;
    for cell in 0..gates.len() {
        let role = roles[cell];
        add_cell_pins(kit, numbers, &gates[cell], role, x, pins)?;
        x += leaf_of(kit, role).width;
    }
    Ok(())
}

/// Adds the pins of a cell that begins at x: those of its ports before the supplies.
fn add_cell_pins(
    kit: &Kit,
    numbers: &NetNumbers,
    gate: &Instance,
    role: Role,
    x: i64,
    pins: &mut Vec<ChannelPin>,
) -> Result<(), Memory>
    requires kit { IsKit kit.now }
    requires ports { 2 ≤ length gate.now.nodes }
    requires nodes { length gate.now.nodes ≡ length (role_demands role) }
    requires x { IsUpTo (2 ^ 28 - 65536) x }
    ensures is { OnOk result (pins.new.items ≡ pins.old.items ++ cell_channel_pins (pin_begin kit.now)
        (found_number numbers.now) role gate.now x) }
    ensures main { OnOk result ((nets : ℕ) → IsNetNumbering nets (found_number numbers.now)
        → AreMainPins nets pins.old.items → AreMainPins nets pins.new.items) }
{
    for port in 0..gate.nodes.as_slice().len() - 2 {
        let node = gate.nodes.as_slice()[port].as_bytes();
        add_leaf_pin(kit, numbers, node, role, port, x, pins)?;
    }
    Ok(())
}
