ghost use Rattle.std.specs.Prelude.{◌<◌, ◌+◌, List, length, IfOk, OnOk};
ghost use Rattle.or_geom.specs.declared.shape.Shape.{Shape};
ghost use Rattle.or_geom.specs.Adds.{Adds};
ghost use Rattle.or_geom.specs.Gathering.{SomeGives};
ghost use Rattle.drawn_devices.specs.CutShapes.{AreCutShapes};
ghost use Rattle.drawn_devices.specs.DiffusionBoxes.{IsDiffusionAdded};
ghost use Rattle.drawn_devices.specs.DrawnShapes.{GivesDrawn};

use crate::boxes::add_shapes;
use crate::diffusion::{diffusion_boxes, is_active};
use or_geom::{Memory, Shape, sort_distinct};
use std::alloc::Global;
use tech_rules::Device;

/// Adds the shapes on other than active layers.
fn add_drawn(devices: &[Device], shapes: &[Shape], out: &mut Vec<Shape>) -> Result<(), Memory>
    ensures { OnOk result (Adds out.old.items out.new.items (SomeGives (GivesDrawn devices.now) shapes.now)) }
{
    for shape in shapes {
        if is_active(devices, shape.layer) {
            continue;
        }
        out.push(*shape)?;
    }
    Ok(())
}

/// Adds the diffusion of one layer as shapes.
fn add_layer(
    alloc: Global,
    devices: &[Device],
    shapes: &[Shape],
    index: usize,
    out: &mut Vec<Shape>,
) -> Result<(), Memory>
    requires { index < length devices.now }
    ensures { OnOk result ((first : List Shape) → IsDiffusionAdded devices.now shapes.now index first out.old.items
        → IsDiffusionAdded devices.now shapes.now (index + 1) first out.new.items) }
{
    let layer = devices[index].active;
    // The diffusion of a layer is added once, with the first of its devices.
    if is_active(&devices[..index], layer) {
        return Ok(());
    }
    let boxes = diffusion_boxes(alloc, devices, shapes, layer)?;
    add_shapes(layer, &boxes, out)?;
    Ok(())
}

/// Adds the diffusion of all devices as shapes.
fn add_diffusion(
    alloc: Global,
    devices: &[Device],
    shapes: &[Shape],
    out: &mut Vec<Shape>,
) -> Result<(), Memory>
    ensures { OnOk result (IsDiffusionAdded devices.now shapes.now (length devices.now) out.old.items out.new.items) }
{
    for index in 0..devices.len() {
        add_layer(alloc, devices, shapes, index, out)?;
    }
    Ok(())
}

/// The shapes of a cell with its active shapes cut by gates.
pub fn cut_shapes(alloc: Global, devices: &[Device], shapes: &[Shape]) -> Result<Vec<Shape>, Memory>
    ensures { IfOk result (λ cut. AreCutShapes devices.now shapes.now cut.items) }
{
    let mut cut = Vec::new(alloc);
    add_drawn(devices, shapes, &mut cut)?;
    add_diffusion(alloc, devices, shapes, &mut cut)?;
    sort_distinct(&mut cut);
    Ok(cut)
}
