ghost use Rattle.std.specs.Prelude.{◌≡◌, ◌++◌, OnOk};
ghost use Rattle.or_geom.specs.Adds.{Adds};
ghost use Rattle.shape_bins.specs.Layers.{rects_on};
ghost use Rattle.drawn_devices.specs.Boxes.{IsShapeOfBox};

use or_geom::{Memory, Rect, Shape};

/// Adds the boxes of the shapes on a layer.
pub fn add_boxes_on(shapes: &[Shape], layer: u16, out: &mut Vec<Rect>) -> Result<(), Memory>
    ensures { OnOk result (out.new.items ≡ out.old.items ++ rects_on layer shapes.now) }
{
    for shape in shapes {
        if shape.layer == layer {
            out.push(shape.rect)?;
        }
    }
    Ok(())
}

/// Adds the boxes as shapes on a layer.
pub fn add_shapes(layer: u16, boxes: &[Rect], out: &mut Vec<Shape>) -> Result<(), Memory>
    ensures { OnOk result (Adds out.old.items out.new.items (IsShapeOfBox layer boxes.now)) }
{
    for rect in boxes {
        out.push(Shape { layer, rect: *rect })?;
    }
    Ok(())
}
