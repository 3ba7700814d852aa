ghost use Rattle.std.specs.Prelude.{◌≡◌, IfOk};
ghost use Rattle.leaf_tables.specs.Kits.{IsKit};
ghost use Rattle.floorplan.specs.LayoutOfKit.{layout_kit};
ghost use Rattle.port_data.specs.Pins.{AreFewColumns, AreNearEnds, sense_ends, bottom_pins};

use crate::columns::Columns;
use crate::leaves::pin_left;
use crate::lines::{LineEnds, add_lines};
use cell_roles::Role;
use channel_router::ChannelPin;
use leaf_tables::Kit;
use or_geom::Memory;
use std::alloc::Global;

/// Where the lines of a bit begin in its sense cell.
fn sense_ends(kit: &Kit) -> LineEnds
    requires { IsKit kit.now }
    ensures is { result ≡ sense_ends (layout_kit kit.now) }
    ensures near { AreNearEnds result }
{
    LineEnds {
        lo: pin_left(kit, Role::Sense, 0),
        ro: pin_left(kit, Role::Sense, 1),
    }
}

/// The pins of the channel's bottom: the lines at each sense cell, which stands under the first column of its bit.
pub fn bottom_pins(alloc: Global, kit: &Kit, columns: &Columns) -> Result<Vec<ChannelPin>, Memory>
    requires kit { IsKit kit.now }
    requires few { AreFewColumns columns.now }
    ensures { IfOk result (λ pins. pins.items ≡ bottom_pins (layout_kit kit.now) columns.now) }
{
    let ends = sense_ends(kit);
    let mut pins = Vec::new(alloc);
    for bit in 0..columns.bits {
        let x = bit * columns.words * columns.width;
        add_lines(columns.choices, ends, bit, x, &mut pins)?;
    }
    Ok(pins)
}
