ghost use Rattle.std.specs.Prelude.{◌↔◌, IsTrue, MatchOption};
ghost use Rattle.leaf_shapes.specs.Outline.{AreAll, IsAlone, IsEmptyLayer, IsOn, IsCellOutline, IsWireLayer, LieInside};
ghost use Rattle.leaf_shapes.specs.declared.fit.CellSize.{CellSize};
ghost use Rattle.or_geom.specs.declared.shape.Shape.{Shape};

use crate::fit::CellSize;
use or_geom::{Rect, Shape, holds};
use tech_rules::Wire;

/// The longest side of a cell, in nanometres.
const LONGEST: i64 = 65536;

/// The first shape on the layer.
fn first_on(layer: u16, shapes: &[Shape]) -> Option<Shape>
    ensures { MatchOption result (IsEmptyLayer layer shapes.now) (IsOn layer shapes.now) }
{
    for shape in shapes {
        if shape.layer == layer {
            return Some(*shape);
        }
    }
    None
}

/// Whether all shapes on the layer are this one.
fn are_all(layer: u16, shapes: &[Shape], one: Shape) -> bool
    ensures { IsTrue result ↔ AreAll layer shapes.now one }
{
    for shape in shapes {
        if shape.layer != layer {
            continue;
        }
        if *shape != one {
            return false;
        }
    }
    true
}

/// The one shape on the layer, if there is just one.
fn only_shape(layer: u16, shapes: &[Shape]) -> Option<Shape>
    ensures { MatchOption result ((shape : Shape) → IsAlone layer shapes.now shape → ⊥) (IsAlone layer shapes.now) }
{
    let Some(shape) = first_on(layer, shapes) else {
        return None;
    };
    if !are_all(layer, shapes, shape) {
        return None;
    }
    Some(shape)
}

/// Whether wires are drawn on the layer: a metal or a cut.
fn is_wire_layer(wire: &Wire, layer: u16) -> bool
    ensures { IsTrue result ↔ IsWireLayer wire.now layer }
{
    wire.metals.contains(&layer) || wire.cuts.contains(&layer)
}

/// Whether all shapes on metals and cuts lie inside.
fn lie_inside(wire: &Wire, outer: Rect, shapes: &[Shape]) -> bool
    ensures { IsTrue result ↔ LieInside wire.now outer shapes.now }
{
    for shape in shapes {
        if !is_wire_layer(wire, shape.layer) {
            continue;
        }
        if !holds(outer, shape.rect) {
            return false;
        }
    }
    true
}

/// The size of a cell with these flat shapes. The layer of outlines has one shape, which begins at the origin and has
/// no side above 65,536 nanometres, and all shapes on metals and cuts lie inside it; else there is none.
pub fn outline_size(wire: &Wire, outline: u16, shapes: &[Shape]) -> Option<CellSize>
    ensures { MatchOption result ((size : CellSize) → IsCellOutline wire.now outline shapes.now size
        → ⊥) (IsCellOutline wire.now outline shapes.now) }
{
    let Some(shape) = only_shape(outline, shapes) else {
        return None;
    };
    let rect = shape.rect;
    if rect.x1 != 0 {
        return None;
    }
    if rect.y1 != 0 {
        return None;
    }
    if LONGEST < rect.x2 {
        return None;
    }
    if LONGEST < rect.y2 {
        return None;
    }
    if !lie_inside(wire, rect, shapes) {
        return None;
    }
    Some(CellSize {
        width: rect.x2,
        height: rect.y2,
    })
}
