ghost use Rattle.std.specs.Prelude.{◌↔◌, IfOk, IsTrue};
ghost use Rattle.drawn_devices.specs.Diffusion.{IsActive};
ghost use Rattle.drawn_devices.specs.DiffusionBoxes.{AreDiffusionBoxes, AreGatesOver};

use crate::boxes::add_boxes_on;
use box_pieces::split;
use or_geom::{Memory, Rect, Shape};
use std::alloc::Global;
use tech_rules::Device;

/// Whether the layer is some device's active layer.
pub fn is_active(devices: &[Device], layer: u16) -> bool
    ensures { IsTrue result ↔ IsActive devices.now layer }
{
    for device in devices {
        if device.active == layer {
            return true;
        }
    }
    false
}

/// The boxes of the gates of the devices that have this active layer.
fn gates_over(
    alloc: Global,
    devices: &[Device],
    shapes: &[Shape],
    layer: u16,
) -> Result<Vec<Rect>, Memory>
    ensures { IfOk result (λ gates. AreGatesOver devices.now shapes.now layer gates.items) }
{
    let mut gates = Vec::new(alloc);
    for device in devices {
        if device.active != layer {
            continue;
        }
        add_boxes_on(shapes, device.gate, &mut gates)?;
    }
    Ok(gates)
}

/// Boxes that have exactly the diffusion cells of an active layer.
pub fn diffusion_boxes(
    alloc: Global,
    devices: &[Device],
    shapes: &[Shape],
    layer: u16,
) -> Result<Vec<Rect>, Memory>
    requires { IsActive devices.now layer }
    ensures { IfOk result (λ boxes. AreDiffusionBoxes devices.now shapes.now layer boxes.items) }
{
    let mut drawn = Vec::new(alloc);
    add_boxes_on(shapes, layer, &mut drawn)?;
    let gates = gates_over(alloc, devices, shapes, layer)?;
    Ok(split(alloc, &drawn, &gates)?.outside)
}
