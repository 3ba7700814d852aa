ghost use Rattle.std.specs.Prelude.{◌≡◌, ◌++◌, ◌<◌, ◌^◌, ℤ, pos, ◌≤ℤ◌, length, IfOk, OnOk, flat_map};
ghost use Rattle.sram_plan.specs.View.{IsLength, IsView};
ghost use Rattle.macro_views.specs.Lines.{text_of_lines};
ghost use Rattle.macro_views.specs.Lef.{HasNoNegativeLength, metal_name, corner_text, box_text, port_lines, pin_lines};
ghost use Rattle.macro_views.specs.Lef.{signal_direction, signal_use, signal_text, supply_lines, supplies_lines};
ghost use Rattle.macro_views.specs.Lef.{blocked_lines, obstruction_lines, size_text, head_lines, end_lines, lef_text};

use crate::line::{append, append_filled, append_microns};
use or_geom::Memory;
use sram_plan::{Abstract, SignalPin};
use std::alloc::Global;

/// What a LEF file begins with.
const HEAD: &[u8] = b"VERSION 5.8 ;
BUSBITCHARS \"[]\" ;
DIVIDERCHAR \"/\" ;
UNITS
  DATABASE MICRONS 1000 ;
END UNITS
";

/// A box from its lower left to its upper right corner, in nanometres.
#[derive(Clone, Copy)]
struct LefBox {
    x1: i64,
    y1: i64,
    x2: i64,
    y2: i64,
}

/// The abstract view of a macro as LEF 5.8, in microns with three decimals: its size, a pin for each signal and for the
/// two supplies, and the areas of the four metals where no wire may be drawn.
pub fn lef_text(alloc: Global, view: &Abstract) -> Result<Vec<u8>, Memory>
    requires { IsView view.now }
    ensures { IfOk result (λ text. text.items ≡ lef_text view.now) }
{
    let mut out = Vec::new(alloc);
    write_head(&mut out, view)?;
    write_signals(&mut out, view)?;
    write_supplies(&mut out, view)?;
    write_obstructions(&mut out, view)?;
    write_end(&mut out, view)?;
    Ok(out)
}

/// The version, the units, and the macro's name and size.
fn write_head(out: &mut Vec<u8>, view: &Abstract) -> Result<(), Memory>
    requires { IsView view.now }
    ensures { OnOk result (out.new.items ≡ out.old.items ++ text_of_lines (head_lines view.now)) }
{
    append(out, HEAD)?;
    append_filled(out, b"MACRO ", view.name.as_bytes(), b"\n  CLASS BLOCK ;\n")?;
    write_size(out, view)?;
    append(out, b"\n  SYMMETRY X Y ;\n")?;
    Ok(())
}

fn write_size(out: &mut Vec<u8>, view: &Abstract) -> Result<(), Memory>
    requires { IsView view.now }
    ensures { OnOk result (out.new.items ≡ out.old.items ++ size_text view.now) }
{
    append(out, b"  SIZE ")?;
    append_microns(out, view.width)?;
    append(out, b" BY ")?;
    append_microns(out, view.height)?;
    append(out, b" ;")?;
    Ok(())
}

fn write_end(out: &mut Vec<u8>, view: &Abstract) -> Result<(), Memory>
    ensures { OnOk result (out.new.items ≡ out.old.items ++ text_of_lines (end_lines view.now)) }
{
    append_filled(out, b"END ", view.name.as_bytes(), b"\nEND LIBRARY\n")
}

/// The pins of the signals: each a pitch long and a wire high, at the macro's left side.
fn write_signals(out: &mut Vec<u8>, view: &Abstract) -> Result<(), Memory>
    requires { IsView view.now }
    ensures { OnOk result (out.new.items ≡ out.old.items ++ flat_map (signal_text view.now) view.now.signals) }
{
    for pin in view.signals.as_slice() {
        write_signal(out, view, pin)?;
    }
    Ok(())
}

fn write_signal(out: &mut Vec<u8>, view: &Abstract, pin: &SignalPin) -> Result<(), Memory>
    requires view { IsView view.now }
    requires pin { IsLength pin.now.y }
    ensures { OnOk result (out.new.items ≡ out.old.items ++ signal_text view.now pin.now) }
{
    let area = LefBox {
        x1: 0,
        y1: pin.y,
        x2: view.pitch,
        y2: pin.y + view.wire,
    };
    let name = pin.name.as_bytes();
    write_pin(
        out,
        name,
        direction_of(pin),
        use_of(pin),
        metal_name(view, 2),
        area,
    )?;
    Ok(())
}

fn direction_of(pin: &SignalPin) -> &'static [u8]
    ensures { result.now ≡ signal_direction pin.now }
{
    if pin.output { b"OUTPUT" } else { b"INPUT" }
}

fn use_of(pin: &SignalPin) -> &'static [u8]
    ensures { result.now ≡ signal_use pin.now }
{
    if pin.clock { b"CLOCK" } else { b"SIGNAL" }
}

/// The pins of vdd and, a pitch further right, gnd.
fn write_supplies(out: &mut Vec<u8>, view: &Abstract) -> Result<(), Memory>
    requires { IsView view.now }
    ensures { OnOk result (out.new.items ≡ out.old.items ++ text_of_lines (supplies_lines view.now)) }
{
    write_supply(out, view, b"vdd", b"POWER", view.supply_x)?;
    write_supply(out, view, b"gnd", b"GROUND", view.supply_x + view.pitch)?;
    Ok(())
}

/// The pin of a supply, whose wire goes from the macro's lower to its upper side.
fn write_supply(
    out: &mut Vec<u8>,
    view: &Abstract,
    name: &[u8],
    use_of: &[u8],
    x: i64,
) -> Result<(), Memory>
    requires view { IsView view.now }
    requires low { pos 0 ≤ℤ x }
    requires high { x ≤ℤ pos (2 ^ 41) }
    ensures { OnOk result (out.new.items
        ≡ out.old.items ++ text_of_lines (supply_lines view.now name.now use_of.now x)) }
{
    let area = LefBox {
        x1: x,
        y1: 0,
        x2: x + view.wire,
        y2: view.height,
    };
    write_pin(out, name, b"INOUT", use_of, metal_name(view, 1), area)?;
    Ok(())
}

/// A pin with one box.
fn write_pin(
    out: &mut Vec<u8>,
    name: &[u8],
    direction: &[u8],
    use_of: &[u8],
    layer: &[u8],
    area: LefBox,
) -> Result<(), Memory>
    requires { HasNoNegativeLength area }
    ensures { OnOk result (out.new.items ≡ out.old.items ++ text_of_lines
        (pin_lines name.now direction.now use_of.now layer.now area)) }
{
    append_filled(out, b"  PIN ", name, b"\n")?;
    append_filled(out, b"    DIRECTION ", direction, b" ;\n")?;
    append_filled(out, b"    USE ", use_of, b" ;\n")?;
    write_port(out, layer, area)?;
    append_filled(out, b"  END ", name, b"\n")?;
    Ok(())
}

fn write_port(out: &mut Vec<u8>, layer: &[u8], area: LefBox) -> Result<(), Memory>
    requires { HasNoNegativeLength area }
    ensures { OnOk result (out.new.items ≡ out.old.items ++ text_of_lines (port_lines layer.now area)) }
{
    append_filled(out, b"    PORT\n      LAYER ", layer, b" ;\n        ")?;
    append_box(out, area)?;
    append(out, b"\n    END\n")?;
    Ok(())
}

/// What is blocked on each metal.
fn write_obstructions(out: &mut Vec<u8>, view: &Abstract) -> Result<(), Memory>
    requires { IsView view.now }
    ensures { OnOk result (out.new.items ≡ out.old.items ++ text_of_lines (obstruction_lines view.now)) }
{
    let whole = LefBox {
        x1: 0,
        y1: 0,
        x2: view.width,
        y2: view.height,
    };
    let before_supplies = LefBox {
        x2: view.supply_x - view.space,
        ..whole
    };
    let behind_signals = LefBox {
        x1: view.pitch,
        ..whole
    };
    append(out, b"  OBS\n")?;
    write_blocked(out, metal_name(view, 0), whole)?;
    write_blocked(out, metal_name(view, 1), before_supplies)?;
    write_blocked(out, metal_name(view, 2), behind_signals)?;
    write_blocked(out, metal_name(view, 3), whole)?;
    append(out, b"  END\n")?;
    Ok(())
}

/// A box of a metal where no wire may be drawn.
fn write_blocked(out: &mut Vec<u8>, layer: &[u8], area: LefBox) -> Result<(), Memory>
    requires { HasNoNegativeLength area }
    ensures { OnOk result (out.new.items ≡ out.old.items ++ text_of_lines (blocked_lines layer.now area)) }
{
    append_filled(out, b"    LAYER ", layer, b" ;\n      ")?;
    append_box(out, area)?;
    append(out, b"\n")?;
    Ok(())
}

fn append_box(out: &mut Vec<u8>, area: LefBox) -> Result<(), Memory>
    requires { HasNoNegativeLength area }
    ensures { OnOk result (out.new.items ≡ out.old.items ++ box_text area) }
{
    append(out, b"RECT ")?;
    append_corner(out, area.x1, area.y1)?;
    append(out, b" ")?;
    append_corner(out, area.x2, area.y2)?;
    append(out, b" ;")?;
    Ok(())
}

fn append_corner(out: &mut Vec<u8>, x: i64, y: i64) -> Result<(), Memory>
    requires right { pos 0 ≤ℤ x }
    requires up { pos 0 ≤ℤ y }
    ensures { OnOk result (out.new.items ≡ out.old.items ++ corner_text x y) }
{
    append_microns(out, x)?;
    append(out, b" ")?;
    append_microns(out, y)
}

/// The name of a metal, from 0.
fn metal_name(view: &Abstract, index: usize) -> &[u8]
    requires { index < length view.now.metals }
    ensures { result.now ≡ metal_name view.now index }
{
    view.metals[index].as_bytes()
}
