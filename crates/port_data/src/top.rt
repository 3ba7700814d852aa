ghost use Rattle.std.specs.Prelude.{◌≡◌, ◌++◌, IfOk, OnOk};
ghost use Rattle.leaf_tables.specs.Kits.{IsKit};
ghost use Rattle.sram_netlist.specs.InstanceList.{tabulate, tabulate_lists};
ghost use Rattle.floorplan.specs.LayoutOfKit.{layout_kit};
ghost use Rattle.leaf_tables.specs.NearLeaf.{IsLeafLength};
ghost use Rattle.port_data.specs.Pins.{AreFewColumns, AreNearEnds, column_ends, column_lines, column_choice};
ghost use Rattle.port_data.specs.Pins.{choice_pins, top_pins};

use crate::columns::Columns;
use crate::leaves::pin_left;
use crate::lines::{LineEnds, add_lines, pin_in};
use cell_roles::Role;
use channel_router::ChannelPin;
use leaf_tables::Kit;
use or_geom::Memory;
use std::alloc::Global;

/// Where the lines of a bit begin in a column's end: a tie where there are no column bits, or else a multiplexer.
fn column_ends(kit: &Kit, col_bits: u32) -> LineEnds
    requires { IsKit kit.now }
    ensures is { result ≡ column_ends col_bits (layout_kit kit.now) }
    ensures near { AreNearEnds result }
{
    if col_bits == 0 {
        return LineEnds {
            lo: pin_left(kit, Role::Tie, 1),
            ro: pin_left(kit, Role::Tie, 3),
        };
    }
    LineEnds {
        lo: pin_left(kit, Role::Mux, 2),
        ro: pin_left(kit, Role::Mux, 3),
    }
}

/// Adds the pins of the lines, column by column.
fn add_column_lines(
    columns: &Columns,
    ends: LineEnds,
    pins: &mut Vec<ChannelPin>,
) -> Result<(), Memory>
    requires few { AreFewColumns columns.now }
    requires ends { AreNearEnds ends }
    ensures { OnOk result (pins.new.items ≡ pins.old.items ++ tabulate_lists columns.now.count
        (column_lines columns.now ends)) }
{
    for column in 0..columns.count {
        let bit = column / columns.words;
        add_lines(columns.choices, ends, bit, column * columns.width, pins)?;
    }
    Ok(())
}

/// Adds the pins of the column choices, column by column. They begin so far right in a multiplexer.
fn add_column_choices(
    columns: &Columns,
    left: i64,
    pins: &mut Vec<ChannelPin>,
) -> Result<(), Memory>
    requires few { AreFewColumns columns.now }
    requires left { IsLeafLength left }
    ensures { OnOk result (pins.new.items ≡ pins.old.items ++ tabulate columns.now.count
        (column_choice columns.now left)) }
{
    for column in 0..columns.count {
        let choice = column % columns.words;
        pins.push(pin_in(choice, column * columns.width, left))?;
    }
    Ok(())
}

/// Adds the pins of the column choices, where there are column bits.
fn add_choices(
    kit: &Kit,
    col_bits: u32,
    columns: &Columns,
    pins: &mut Vec<ChannelPin>,
) -> Result<(), Memory>
    requires kit { IsKit kit.now }
    requires few { AreFewColumns columns.now }
    ensures { OnOk result (pins.new.items ≡ pins.old.items ++ choice_pins col_bits (layout_kit kit.now) columns.now) }
{
    if col_bits == 0 {
        return Ok(());
    }
    add_column_choices(columns, pin_left(kit, Role::Mux, 4), pins)?;
    Ok(())
}

/// The pins of the channel's top: the lines at each column, and then the column choices.
pub fn top_pins(
    alloc: Global,
    kit: &Kit,
    col_bits: u32,
    columns: &Columns,
) -> Result<Vec<ChannelPin>, Memory>
    requires kit { IsKit kit.now }
    requires few { AreFewColumns columns.now }
    ensures { IfOk result (λ pins. pins.items ≡ top_pins col_bits (layout_kit kit.now) columns.now) }
{
    let mut pins = Vec::new(alloc);
    add_column_lines(columns, column_ends(kit, col_bits), &mut pins)?;
    add_choices(kit, col_bits, columns, &mut pins)?;
    Ok(pins)
}
