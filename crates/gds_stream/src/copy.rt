ghost use Rattle.std.specs.Prelude.{◌≡◌, IfOk};

use gds_library::{Element, Prop, Structure};
use or_geom::{Items, Memory, Name, Point};
use std::alloc::Global;

fn name_copy(alloc: Global, name: &Name) -> Result<Name, Memory>
    ensures { IfOk result (λ copy. copy ≡ name.now) }
{
    Name::from_bytes(alloc, name.as_bytes())
}

fn points_copy(alloc: Global, points: &Items<Point>) -> Result<Items<Point>, Memory>
    ensures { IfOk result (λ copy. copy ≡ points.now) }
{
    Ok(Items::from_vec(Vec::from_slice(alloc, points.as_slice())?))
}

fn prop_copy(alloc: Global, prop: &Prop) -> Result<Prop, Memory>
    ensures { IfOk result (λ copy. copy ≡ prop.now) }
{
    let value = name_copy(alloc, &prop.value)?;
    Ok(Prop {
        attr: prop.attr,
        value,
    })
}

fn props_copy(alloc: Global, props: &Items<Prop>) -> Result<Items<Prop>, Memory>
    ensures { IfOk result (λ copy. copy ≡ props.now) }
{
    let mut copies = Vec::new(alloc);
    let mut rest = props.as_slice();
    while let Some((prop, others)) = rest.split_first() {
        rest = others;
        copies.push(prop_copy(alloc, prop)?)?;
    }
    Ok(Items::from_vec(copies))
}

fn element_copy(alloc: Global, element: &Element) -> Result<Element, Memory>
    ensures { IfOk result (λ copy. copy ≡ element.now) }
{
    match element {
        Element::Boundary {
            layer,
            datatype,
            points,
            props,
        } => Ok(Element::Boundary {
            layer: *layer,
            datatype: *datatype,
            points: points_copy(alloc, points)?,
            props: props_copy(alloc, props)?,
        }),
        Element::Path {
            layer,
            datatype,
            kind,
            width,
            points,
            props,
        } => Ok(Element::Path {
            layer: *layer,
            datatype: *datatype,
            kind: *kind,
            width: *width,
            points: points_copy(alloc, points)?,
            props: props_copy(alloc, props)?,
        }),
        Element::Sref { name, place, props } => Ok(Element::Sref {
            name: name_copy(alloc, name)?,
            place: *place,
            props: props_copy(alloc, props)?,
        }),
        Element::Aref {
            name,
            place,
            columns,
            rows,
            across,
            down,
            props,
        } => Ok(Element::Aref {
            name: name_copy(alloc, name)?,
            place: *place,
            columns: *columns,
            rows: *rows,
            across: *across,
            down: *down,
            props: props_copy(alloc, props)?,
        }),
        Element::Text {
            layer,
            texttype,
            at,
            string,
            props,
        } => Ok(Element::Text {
            layer: *layer,
            texttype: *texttype,
            at: *at,
            string: name_copy(alloc, string)?,
            props: props_copy(alloc, props)?,
        }),
    }
}

/// A copy of a structure, equal to it.
pub fn structure_copy(alloc: Global, structure: &Structure) -> Result<Structure, Memory>
    ensures { IfOk result (λ copy. copy ≡ structure.now) }
{
    let name = name_copy(alloc, &structure.name)?;
    let mut copies = Vec::new(alloc);
    let mut rest = structure.elements.as_slice();
    while let Some((element, others)) = rest.split_first() {
        rest = others;
        copies.push(element_copy(alloc, element)?)?;
    }
    Ok(Structure {
        name,
        elements: Items::from_vec(copies),
    })
}

/// Copies of structures, equal to them and in their order.
pub fn structures_copy(alloc: Global, structures: &[Structure]) -> Result<Vec<Structure>, Memory>
    ensures { IfOk result (λ copies. copies.items ≡ structures.now) }
{
    let mut copies = Vec::new(alloc);
    let mut rest = structures;
    while let Some((structure, others)) = rest.split_first() {
        rest = others;
        copies.push(structure_copy(alloc, structure)?)?;
    }
    Ok(copies)
}
