ghost use Rattle.std.specs.Prelude.{◌≡◌, ◌≤◌, ◌++◌, OnOk};
ghost use Rattle.leaf_tables.specs.NearLeaf.{IsLeafLength};
ghost use Rattle.port_data.specs.Pins.{pin_in, line_pins, AreNearEnds};

use channel_router::ChannelPin;
use or_geom::Memory;

/// Where the shapes of a bit's two lines begin in a leaf cell, in nanometres from its left edge.
#[derive(Clone, Copy, Debug)]
pub struct LineEnds {
    pub lo: i64,
    pub ro: i64,
}

/// A net's pin that begins so far right in a cell that begins at x.
pub fn pin_in(net: u32, x: u32, left: i64) -> ChannelPin
    requires { IsLeafLength left }
    ensures { result ≡ pin_in net x left }
{
    ChannelPin {
        x: i64::from(x) + left,
        net,
    }
}

/// Adds the pins of the two lines of a bit, in a cell that begins at x. So many column choices are numbered before
/// them.
pub fn add_lines(
    choices: u32,
    ends: LineEnds,
    bit: u32,
    x: u32,
    pins: &mut Vec<ChannelPin>,
) -> Result<(), Memory>
    requires choices { choices ≤ 8 }
    requires ends { AreNearEnds ends }
    requires bit { bit ≤ 256 }
    ensures { OnOk result (pins.new.items ≡ pins.old.items ++ line_pins choices ends bit x) }
{
    let net = choices + 2 * bit;
    pins.push(pin_in(net, x, ends.lo))?;
    pins.push(pin_in(net + 1, x, ends.ro))?;
    Ok(())
}
