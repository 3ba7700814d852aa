ghost use Rattle.std.specs.Prelude.{◌≡◌, ◌++◌, ◌<◌, ◌≤◌, ◌^◌, map, IfOk, OnOk};
ghost use Rattle.gds_library.specs.Grammar.{Spells};
ghost use Rattle.gds_stream.specs.Canonical.{canonical};
ghost use Rattle.demo_kit.specs.DrawnPins.{drawn};
ghost use Rattle.demo_kit.specs.Layout as spec;

use crate::drawing::{CellBox, PinBox, inner_boxes, outline, rails, signals};
use crate::subcircuits::cell_name;
use cell_roles::Role;
use gds_stream::{Element, Library, Structure, write_gds};
use or_geom::{Items, Memory, Name, Point};
use std::alloc::Global;

fn scaled_point(scale: u32, x: u32, y: u32) -> Point
    requires few { scale ≤ 4 }
    requires x { x < 2 ^ 16 }
    requires y { y < 2 ^ 16 }
    ensures { result ≡ spec.scaled_point scale x y }
{
    Point {
        x: i64::from(scale * x),
        y: i64::from(scale * y),
    }
}

/// The corners of a box, counter-clockwise from the lower left one.
fn corners(alloc: Global, scale: u32, shape: CellBox) -> Result<Items<Point>, Memory>
    requires { scale ≤ 4 }
    ensures { IfOk result (λ points. points ≡ spec.box_corners scale shape) }
{
    let (x1, y1) = (u32::from(shape.x1), u32::from(shape.y1));
    let (x2, y2) = (u32::from(shape.x2), u32::from(shape.y2));
    let mut points = Items::new(alloc);
    points.push(scaled_point(scale, x1, y1))?;
    points.push(scaled_point(scale, x2, y1))?;
    points.push(scaled_point(scale, x2, y2))?;
    points.push(scaled_point(scale, x1, y2))?;
    Ok(points)
}

fn boundary(alloc: Global, scale: u32, shape: CellBox) -> Result<Element, Memory>
    requires { scale ≤ 4 }
    ensures { IfOk result (λ element. element ≡ spec.box_boundary scale shape) }
{
    let points = corners(alloc, scale, shape)?;
    Ok(Element::Boundary {
        layer: i16::from(shape.layer.number()),
        datatype: 0,
        points,
        props: Items::new(alloc),
    })
}

/// The name of a pin, two units inside the lower left corner of its shape.
fn label(alloc: Global, scale: u32, pin: PinBox) -> Result<Element, Memory>
    requires { scale ≤ 4 }
    ensures { IfOk result (λ element. element ≡ spec.pin_label scale (drawn pin)) }
{
    let shape = pin.shape;
    let string = Name::from_bytes(alloc, pin.pin.as_bytes())?;
    Ok(Element::Text {
        layer: i16::from(shape.layer.number()),
        texttype: 0,
        at: scaled_point(scale, u32::from(shape.x1) + 2, u32::from(shape.y1) + 2),
        string,
        props: Items::new(alloc),
    })
}

fn add_boxes(
    alloc: Global,
    scale: u32,
    boxes: &[CellBox],
    elements: &mut Vec<Element>,
) -> Result<(), Memory>
    requires { scale ≤ 4 }
    ensures { OnOk result (elements.new.items ≡ elements.old.items ++ map (spec.box_boundary scale) boxes.now) }
{
    let mut rest = boxes;
    while let Some((shape, others)) = rest.split_first() {
        rest = others;
        elements.push(boundary(alloc, scale, *shape)?)?;
    }
    Ok(())
}

/// Adds the shapes of pins.
fn add_pins(
    alloc: Global,
    scale: u32,
    pins: &[PinBox],
    elements: &mut Vec<Element>,
) -> Result<(), Memory>
    requires { scale ≤ 4 }
    ensures { OnOk result (elements.new.items ≡ elements.old.items
        ++ map (spec.box_boundary scale) (map (λ pin. pin.shape) (map drawn pins.now))) }
{
    let mut rest = pins;
    while let Some((pin, others)) = rest.split_first() {
        rest = others;
        elements.push(boundary(alloc, scale, pin.shape)?)?;
    }
    Ok(())
}

fn add_labels(
    alloc: Global,
    scale: u32,
    pins: &[PinBox],
    elements: &mut Vec<Element>,
) -> Result<(), Memory>
    requires { scale ≤ 4 }
    ensures { OnOk result (elements.new.items ≡ elements.old.items ++ map (spec.pin_label scale) (map drawn pins.now)) }
{
    let mut rest = pins;
    while let Some((pin, others)) = rest.split_first() {
        rest = others;
        elements.push(label(alloc, scale, *pin)?)?;
    }
    Ok(())
}

/// What a role's cell draws: the outline, the shapes of the pins, the other boxes, and the labels of the pins.
#[tactic(auto, unfolding(crate::specs::Layout::cell_elements))]
fn elements(alloc: Global, scale: u32, role: Role) -> Result<Vec<Element>, Memory>
    requires { scale ≤ 4 }
    ensures { IfOk result (λ elements. elements.items ≡ spec.cell_elements scale role) }
{
    let rails = rails(role);
    let signals = signals(role);
    let mut elements = Vec::new(alloc);
    add_boxes(alloc, scale, &[outline(role)], &mut elements)?;
    add_pins(alloc, scale, &rails, &mut elements)?;
    add_pins(alloc, scale, signals, &mut elements)?;
    add_boxes(alloc, scale, inner_boxes(role), &mut elements)?;
    add_labels(alloc, scale, &rails, &mut elements)?;
    add_labels(alloc, scale, signals, &mut elements)?;
    Ok(elements)
}

#[tactic(auto, unfolding(crate::specs::Layout::cell_structure))]
fn structure(alloc: Global, scale: u32, role: Role) -> Result<Structure, Memory>
    requires { scale ≤ 4 }
    ensures { IfOk result (λ structure. structure ≡ spec.cell_structure scale role) }
{
    let name = cell_name(alloc, role)?;
    let elements = elements(alloc, scale, role)?;
    Ok(Structure {
        name: Name::from_bytes(alloc, name.as_bytes())?,
        elements: Items::from_vec(elements),
    })
}

fn structures(alloc: Global, scale: u32, roles: &[Role]) -> Result<Vec<Structure>, Memory>
    requires { scale ≤ 4 }
    ensures { IfOk result (λ structs. structs.items ≡ map (spec.cell_structure scale) roles.now) }
{
    let mut structs = Vec::new(alloc);
    for role in roles {
        structs.push(structure(alloc, scale, *role)?)?;
    }
    Ok(structs)
}

#[tactic(auto, unfolding(crate::specs::Layout::demo_library))]
fn library(alloc: Global, scale: u32) -> Result<Library, Memory>
    requires { scale ≤ 4 }
    ensures { IfOk result (λ library. library ≡ spec.demo_library scale) }
{
    let name = Name::from_bytes(alloc, b"demo_tech")?;
    let structs = structures(alloc, scale, &Role::all())?;
    Ok(Library {
        name,
        structs: Items::from_vec(structs),
    })
}

/// The GDSII file: a structure for each role, in order, with all lengths multiplied by `scale`.
#[tactic(auto, using(crate::proofs::KitLaws::library_writable, crate::proofs::TurnLaws::library_stands))]
pub fn layout_bytes(alloc: Global, scale: u32) -> Result<Vec<u8>, Memory>
    requires some { 1 ≤ scale }
    requires few { scale ≤ 4 }
    ensures bytes { IfOk result (λ bytes. bytes.items ≡ canonical (spec.demo_library scale)) }
    ensures spells { IfOk result (λ bytes. Spells bytes.items (spec.demo_library scale)) }
{
    let library = library(alloc, scale)?;
    write_gds(alloc, &library)
}
