ghost use Rattle.std.specs.Prelude.{◌≡◌, ◌++◌, ◌≤◌, OnOk, IfOk, flat_map};
ghost use Rattle.demo_kit.specs.Technology as spec;

use crate::layer::{DemoLayer, ViaLevel};
use crate::lines::{write_heading, write_number, write_text, write_texts};
use crate::subcircuits::cell_name;
use cell_roles::{Role, table_rows};
use itoa::Buffer;
use or_geom::Memory;
use std::alloc::Global;

/// Adds a layer's name and numbers.
#[tactic(auto, unfolding(crate::specs::Technology::layer_block))]
fn write_layer(out: &mut Vec<u8>, layer: DemoLayer) -> Result<(), Memory>
    ensures { OnOk result (out.new.items ≡ out.old.items ++ spec.layer_block layer) }
{
    let mut buffer = Buffer::new();
    write_heading(out, "[[layer]]")?;
    write_text(out, "name", layer.name())?;
    out.extend_from_slice(b"gds = [".as_slice())?;
    out.extend_from_slice(buffer.format(layer.number()).as_bytes())?;
    out.extend_from_slice(b", 0]\n".as_slice())?;
    Ok(())
}

/// Adds a rule: a shape of the layer is at least so wide.
#[tactic(auto, unfolding(crate::specs::Technology::width_block))]
fn write_width(out: &mut Vec<u8>, layer: DemoLayer, min: u32) -> Result<(), Memory>
    ensures { OnOk result (out.new.items ≡ out.old.items ++ spec.width_block min layer) }
{
    write_heading(out, "[[rule]]")?;
    write_text(out, "kind", "width")?;
    write_text(out, "layer", layer.name())?;
    write_number(out, "min", min)?;
    Ok(())
}

/// Adds a rule: shapes of the layer are at least so far apart.
#[tactic(auto, unfolding(crate::specs::Technology::space_block))]
fn write_space(out: &mut Vec<u8>, layer: DemoLayer, min: u32) -> Result<(), Memory>
    ensures { OnOk result (out.new.items ≡ out.old.items ++ spec.space_block min layer) }
{
    write_heading(out, "[[rule]]")?;
    write_text(out, "kind", "space")?;
    write_text(out, "layer", layer.name())?;
    write_text(out, "other", layer.name())?;
    write_number(out, "min", min)?;
    Ok(())
}

/// Adds a rule: the metal reaches at least so far beyond the cut on all sides.
#[tactic(auto, unfolding(crate::specs::Technology::enclose_block))]
fn write_enclose(
    out: &mut Vec<u8>,
    cut: DemoLayer,
    metal: DemoLayer,
    min: u32,
) -> Result<(), Memory>
    ensures { OnOk result (out.new.items ≡ out.old.items ++ spec.enclose_block min cut metal) }
{
    write_heading(out, "[[rule]]")?;
    write_text(out, "kind", "enclose")?;
    write_text(out, "layer", cut.name())?;
    write_texts(out, "by", &[metal.name()])?;
    write_number(out, "min", min)?;
    Ok(())
}

fn write_widths(out: &mut Vec<u8>, layers: &[DemoLayer], min: u32) -> Result<(), Memory>
    ensures { OnOk result (out.new.items ≡ out.old.items ++ flat_map (spec.width_block min) layers.now) }
{
    for layer in layers {
        write_width(out, *layer, min)?;
    }
    Ok(())
}

fn write_spaces(out: &mut Vec<u8>, layers: &[DemoLayer], min: u32) -> Result<(), Memory>
    ensures { OnOk result (out.new.items ≡ out.old.items ++ flat_map (spec.space_block min) layers.now) }
{
    for layer in layers {
        write_space(out, *layer, min)?;
    }
    Ok(())
}

fn write_enclosures(out: &mut Vec<u8>, levels: &[ViaLevel], min: u32) -> Result<(), Memory>
    ensures { OnOk result (out.new.items ≡ out.old.items ++ flat_map (spec.enclose_blocks min) levels.now) }
{
    for level in levels {
        write_enclose(out, level.cut, level.below, min)?;
        write_enclose(out, level.cut, level.above, min)?;
    }
    Ok(())
}

#[tactic(auto, unfolding(crate::specs::Technology::layer_blocks))]
fn write_layers(out: &mut Vec<u8>, layers: &[DemoLayer]) -> Result<(), Memory>
    ensures { OnOk result (out.new.items ≡ out.old.items ++ spec.layer_blocks layers.now) }
{
    for layer in layers {
        write_layer(out, *layer)?;
    }
    Ok(())
}

#[tactic(auto, unfolding(crate::specs::Technology::rule_blocks))]
fn write_rules(out: &mut Vec<u8>, scale: u32) -> Result<(), Memory>
    requires { scale ≤ 4 }
    ensures { OnOk result (out.new.items ≡ out.old.items ++ spec.rule_blocks scale) }
{
    write_widths(out, &DemoLayer::metals(), 4 * scale)?;
    write_widths(out, &DemoLayer::cuts(), 2 * scale)?;
    write_spaces(out, &DemoLayer::metals(), 4 * scale)?;
    write_spaces(out, &DemoLayer::cuts(), 2 * scale)?;
    write_enclosures(out, &ViaLevel::all(), scale)?;
    Ok(())
}

/// Adds a connection: the cut joins the metals below and above it.
#[tactic(auto, unfolding(crate::specs::Technology::connect_block))]
fn write_connect(out: &mut Vec<u8>, level: ViaLevel) -> Result<(), Memory>
    ensures { OnOk result (out.new.items ≡ out.old.items ++ spec.connect_block level) }
{
    write_heading(out, "[[connect]]")?;
    write_text(out, "cut", level.cut.name())?;
    write_texts(out, "to", &[level.below.name(), level.above.name()])?;
    Ok(())
}

#[tactic(auto, unfolding(crate::specs::Technology::connect_blocks))]
fn write_connects(out: &mut Vec<u8>, levels: &[ViaLevel]) -> Result<(), Memory>
    ensures { OnOk result (out.new.items ≡ out.old.items ++ spec.connect_blocks levels.now) }
{
    for level in levels {
        write_connect(out, *level)?;
    }
    Ok(())
}

#[tactic(auto, unfolding(crate::specs::Technology::wire_block))]
fn write_wire(out: &mut Vec<u8>, scale: u32) -> Result<(), Memory>
    requires { scale ≤ 4 }
    ensures { OnOk result (out.new.items ≡ out.old.items ++ spec.wire_block scale) }
{
    write_heading(out, "[wire]")?;
    write_number(out, "width", 4 * scale)?;
    write_number(out, "space", 4 * scale)?;
    write_number(out, "cut", 2 * scale)?;
    let [m1, m2, m3, m4] = DemoLayer::metals();
    write_texts(out, "metals", &[m1.name(), m2.name(), m3.name(), m4.name()])?;
    let [via1, via2, via3] = DemoLayer::cuts();
    write_texts(out, "cuts", &[via1.name(), via2.name(), via3.name()])?;
    Ok(())
}

/// Adds the name of each role's cell.
#[tactic(auto, unfolding(crate::specs::Technology::role_block))]
fn write_roles(alloc: Global, out: &mut Vec<u8>, roles: &[Role]) -> Result<(), Memory>
    ensures { OnOk result (out.new.items ≡ out.old.items ++ spec.role_block roles.now) }
{
    write_heading(out, "[role]")?;
    for role in roles {
        let cell = cell_name(alloc, *role)?;
        write_text(out, role.name(), cell.as_str())?;
    }
    Ok(())
}

/// Adds the table of each role.
#[tactic(auto, unfolding(crate::specs::Technology::table_block))]
fn write_tables(out: &mut Vec<u8>, roles: &[Role]) -> Result<(), Memory>
    ensures { OnOk result (out.new.items ≡ out.old.items ++ spec.table_block roles.now) }
{
    write_heading(out, "[table]")?;
    for role in roles {
        write_texts(out, role.name(), table_rows(*role))?;
    }
    Ok(())
}

/// The technology file, with all lengths multiplied by `scale`.
#[tactic(auto, unfolding(crate::specs::Technology::demo_technology))]
pub fn technology(alloc: Global, scale: u32) -> Result<Vec<u8>, Memory>
    requires { scale ≤ 4 }
    ensures { IfOk result (λ text. text.items ≡ spec.demo_technology scale) }
{
    let mut out = Vec::new(alloc);
    write_text(&mut out, "outline", "outline")?;
    write_layers(&mut out, &DemoLayer::all())?;
    write_rules(&mut out, scale)?;
    write_connects(&mut out, &ViaLevel::all())?;
    write_wire(&mut out, scale)?;
    write_roles(alloc, &mut out, &Role::all())?;
    write_tables(&mut out, &Role::all())?;
    Ok(out)
}
