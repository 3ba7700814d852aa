ghost use Rattle.std.specs.Prelude.{◌≡◌, ◌++◌, ◌+ℤ◌, ◌-◌, ◌<◌, ◌^◌, ℕ, length, OnOk};
ghost use Rattle.leaf_shapes.specs.Demands.{role_demands};
ghost use Rattle.leaf_tables.specs.Kits.{IsKit};
ghost use Rattle.floorplan.specs.FloorplanNumbers.{IsUpTo};
ghost use Rattle.main_channel.specs.Leaves.{pin_begin};
ghost use Rattle.main_channel.specs.Numbers.{found_number, IsNetNumbering};
ghost use Rattle.main_channel.specs.Pins.{IsMacroCoordinate, AreMainPins, numbered_net};

use crate::leaves::pin_left;
use crate::names::NetNumbers;
use cell_roles::Role;
use channel_router::ChannelPin;
use leaf_tables::Kit;
use or_geom::Memory;

/// Adds a pin at x of the net of this name, if it is one of the channel's.
pub fn add_pin(
    numbers: &NetNumbers,
    name: &[u8],
    x: i64,
    pins: &mut Vec<ChannelPin>,
) -> Result<(), Memory>
    requires { IsMacroCoordinate x }
    ensures is { OnOk result (pins.new.items ≡ pins.old.items ++ numbered_net (found_number numbers.now) name.now x) }
    ensures main { OnOk result ((nets : ℕ) → IsNetNumbering nets (found_number numbers.now)
        → AreMainPins nets pins.old.items → AreMainPins nets pins.new.items) }
{
    if let Some(net) = numbers.find(name) {
        pins.push(ChannelPin { x, net })?;
    }
    Ok(())
}

/// The same for a pin of a role's cell that begins at x.
pub fn add_leaf_pin(
    kit: &Kit,
    numbers: &NetNumbers,
    name: &[u8],
    role: Role,
    pin: usize,
    x: i64,
    pins: &mut Vec<ChannelPin>,
) -> Result<(), Memory>
    requires kit { IsKit kit.now }
    requires there { pin < length (role_demands role) }
    requires x { IsUpTo (2 ^ 28 - 65536) x }
    ensures is { OnOk result (pins.new.items ≡ pins.old.items ++ numbered_net (found_number numbers.now) name.now
        (x +ℤ pin_begin kit.now role pin)) }
    ensures main { OnOk result ((nets : ℕ) → IsNetNumbering nets (found_number numbers.now)
        → AreMainPins nets pins.old.items → AreMainPins nets pins.new.items) }
{
    add_pin(numbers, name, x + pin_left(kit, role, pin), pins)?;
    Ok(())
}
