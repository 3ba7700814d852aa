ghost use Rattle.std.specs.Prelude.{◌≡◌, ◌<◌, length, IfOk, Some};
ghost use Rattle.cell_builder.specs.Structures.{ring, boundary_on, instance_element, wire_element, label_element};

use crate::cell::{PlacedInstance, PlacedLabel};
use crate::copy::name_copy;
use gds_library::{Element, Prop};
use or_geom::{Items, Memory, Point, Rect, Shape};
use std::alloc::Global;
use tech_rules::Layer;

/// The corners, counter-clockwise from the lower left one.
fn corners(alloc: Global, r: Rect) -> Result<Items<Point>, Memory>
    ensures { IfOk result (λ points. points ≡ ring r) }
{
    let mut points = Items::new(alloc);
    points.push(Point { x: r.x1, y: r.y1 })?;
    points.push(Point { x: r.x2, y: r.y1 })?;
    points.push(Point { x: r.x2, y: r.y2 })?;
    points.push(Point { x: r.x1, y: r.y2 })?;
    Ok(points)
}

/// The boundary with these corners on the layer.
fn boundary(alloc: Global, layer: &Layer, points: Items<Point>) -> Element
    ensures { result ≡ boundary_on (Some layer.now) points }
{
    Element::Boundary {
        layer: layer.number,
        datatype: layer.datatype,
        points,
        props: Items::new(alloc),
    }
}

/// The boundary of a wire.
pub fn wire_boundary(alloc: Global, layers: &[Layer], wire: Shape) -> Result<Element, Memory>
    requires { wire.layer < length layers.now }
    ensures { IfOk result (λ element. element ≡ wire_element layers.now wire) }
{
    let points = corners(alloc, wire.rect)?;
    Ok(boundary(alloc, &layers[wire.layer as usize], points))
}

/// The text of a label.
pub fn label_text(alloc: Global, layers: &[Layer], label: &PlacedLabel) -> Result<Element, Memory>
    requires { label.now.layer < length layers.now }
    ensures { IfOk result (λ element. element ≡ label_element layers.now label.now) }
{
    let layer = &layers[label.layer as usize];
    let string = name_copy(alloc, &label.text)?;
    Ok(Element::Text {
        layer: layer.text_number,
        texttype: layer.texttype,
        at: label.at,
        string,
        props: Items::new(alloc),
    })
}

/// The reference of an instance, whose name is property 1.
pub fn instance_reference(alloc: Global, instance: &PlacedInstance) -> Result<Element, Memory>
    ensures { IfOk result (λ element. element ≡ instance_element instance.now) }
{
    let value = name_copy(alloc, &instance.name)?;
    let name = name_copy(alloc, &instance.of)?;
    let mut props = Items::new(alloc);
    props.push(Prop { attr: 1, value })?;
    Ok(Element::Sref {
        name,
        place: instance.place,
        props,
    })
}
