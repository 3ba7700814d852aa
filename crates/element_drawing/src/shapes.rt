ghost use Rattle.std.specs.Prelude.{◌≡◌, ◌++◌, ◌≤◌, ◌^◌, length, map, List, IfOk, OnOk};
ghost use Rattle.std.specs.List.{AllByRecursion};
ghost use Rattle.or_geom.specs.declared.shape.Shape.{Shape};
ghost use Rattle.gds_library.specs.Writable.{IsWritableElement};
ghost use Rattle.element_drawing.specs.OwnShapes.{AreOwnShapes, AreShapesOf, IsShapeWithin, element_layer, on_layer};

use crate::drawing::drawing_of;
use crate::layer::shape_layer;
use gds_library::Element;
use or_geom::{Memory, Rect, Shape};
use std::alloc::Global;
use tech_rules::Layer;

/// The layer on which an element draws, if the technology has it.
fn drawn_on(layers: &[Layer], element: &Element) -> Option<u16>
    requires { length layers.now ≤ 64 }
    ensures { result ≡ element_layer layers.now element.now }
{
    match element {
        Element::Boundary {
            layer,
            datatype,
            ..
        } => shape_layer(layers, *layer, *datatype),
        Element::Path {
            layer,
            datatype,
            ..
        } => shape_layer(layers, *layer, *datatype),
        _ => None,
    }
}

/// Adds the rectangles as shapes of the layer.
fn add_rects(layer: u16, rects: &[Rect], out: &mut Vec<Shape>) -> Result<(), Memory>
    ensures { OnOk result (out.new.items ≡ out.old.items ++ map (on_layer layer) rects.now) }
{
    let mut rest = rects;
    while let Some((rect, others)) = rest.split_first() {
        out.push(Shape { layer, rect: *rect })?;
        rest = others;
    }
    Ok(())
}

/// Adds the shapes of an element.
fn add_shapes(
    alloc: Global,
    layers: &[Layer],
    element: &Element,
    out: &mut Vec<Shape>,
) -> Result<(), Memory>
    requires few { length layers.now ≤ 64 }
    requires writable { IsWritableElement element.now }
    ensures { OnOk result ((added : List Shape) × (out.new.items ≡ out.old.items ++ added)
        × AreShapesOf layers.now element.now added) }
{
    let Some(layer) = drawn_on(layers, element) else {
        return Ok(());
    };
    let rects = drawing_of(alloc, element)?;
    add_rects(layer, &rects, out)
}

/// The shapes that the elements draw, one element after another: those on a layer of the technology.
pub fn own_shapes(
    alloc: Global,
    layers: &[Layer],
    elements: &[Element],
) -> Result<Vec<Shape>, Memory>
    requires few { length layers.now ≤ 64 }
    requires writable { AllByRecursion IsWritableElement elements.now }
    ensures are { IfOk result (λ shapes. AreOwnShapes layers.now elements.now shapes.items) }
    ensures near { IfOk result (λ shapes. AllByRecursion (IsShapeWithin (2 ^ 32)) shapes.items) }
{
    let mut shapes = Vec::new(alloc);
    let mut rest = elements;
    while let Some((element, others)) = rest.split_first() {
        add_shapes(alloc, layers, element, &mut shapes)?;
        rest = others;
    }
    Ok(shapes)
}
