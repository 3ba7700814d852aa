ghost use Rattle.std.specs.Prelude.{◌≡◌, ◌<◌, ◌++◌, length, map, IfOk, OnOk};
ghost use Rattle.std.specs.List.{AllByRecursion};
ghost use Rattle.std.specs.List.Sorted.{IsSorted, IsPermutation};
ghost use Rattle.or_geom.specs.ShapeOrder.{shape_order};
ghost use Rattle.cell_builder.specs.LabelOrder.{text_order};
ghost use Rattle.cell_builder.specs.Structures.{instance_element, wire_element, label_element};
ghost use Rattle.cell_builder.specs.Flat.{HasLayers};
ghost use Rattle.cell_builder.specs.Finish.{IsFinishedCell};

use crate::cell::{DrawnCell, PlacedInstance, PlacedLabel};
use crate::copy::{labels_copy, name_copy};
use crate::element::{instance_reference, label_text, wire_boundary};
use gds_library::{Element, Structure};
use or_geom::{Items, Memory, Shape};
use std::alloc::Global;
use tech_rules::Layer;

/// Adds the references of the instances.
fn add_references(
    alloc: Global,
    instances: &[PlacedInstance],
    elements: &mut Vec<Element>,
) -> Result<(), Memory>
    ensures { OnOk result (elements.new.items ≡ elements.old.items ++ map instance_element instances.now) }
{
    let mut rest = instances;
    while let Some((instance, others)) = rest.split_first() {
        rest = others;
        elements.push(instance_reference(alloc, instance)?)?;
    }
    Ok(())
}

/// Adds the boundaries of the wires.
fn add_boundaries(
    alloc: Global,
    layers: &[Layer],
    wires: &[Shape],
    elements: &mut Vec<Element>,
) -> Result<(), Memory>
    requires { AllByRecursion (λ wire. wire.layer < length layers.now) wires.now }
    ensures { OnOk result (elements.new.items ≡ elements.old.items ++ map (wire_element layers.now) wires.now) }
{
    let mut rest = wires;
    while let Some((wire, others)) = rest.split_first() {
        rest = others;
        elements.push(wire_boundary(alloc, layers, *wire)?)?;
    }
    Ok(())
}

/// Adds the texts of the labels.
fn add_texts(
    alloc: Global,
    layers: &[Layer],
    labels: &[PlacedLabel],
    elements: &mut Vec<Element>,
) -> Result<(), Memory>
    requires { AllByRecursion (λ label. label.layer < length layers.now) labels.now }
    ensures { OnOk result (elements.new.items ≡ elements.old.items ++ map (label_element layers.now) labels.now) }
{
    let mut rest = labels;
    while let Some((label, others)) = rest.split_first() {
        rest = others;
        elements.push(label_text(alloc, layers, label)?)?;
    }
    Ok(())
}

/// The wires in the order of shapes.
fn wires_in_order(alloc: Global, wires: &[Shape]) -> Result<Vec<Shape>, Memory>
    ensures rises { IfOk result (λ sorted. IsSorted shape_order sorted.items) }
    ensures same { IfOk result (λ sorted. IsPermutation wires.now sorted.items) }
{
    let mut sorted = Vec::from_slice(alloc, wires)?;
    sorted.sort_unstable();
    Ok(sorted)
}

/// The labels in the order of their texts.
fn labels_in_order(alloc: Global, labels: &[PlacedLabel]) -> Result<Vec<PlacedLabel>, Memory>
    ensures rises { IfOk result (λ sorted. IsSorted text_order sorted.items) }
    ensures same { IfOk result (λ sorted. IsPermutation labels.now sorted.items) }
{
    let mut sorted = labels_copy(alloc, labels)?;
    sorted.sort_unstable();
    Ok(sorted)
}

/// The structure of a cell.
pub fn structure(alloc: Global, layers: &[Layer], cell: &DrawnCell) -> Result<Structure, Memory>
    requires { HasLayers layers.now cell.now }
    ensures { IfOk result (IsFinishedCell layers.now cell.now) }
{
    let name = name_copy(alloc, &cell.name)?;
    let wires = wires_in_order(alloc, cell.wires.as_slice())?;
    let labels = labels_in_order(alloc, cell.labels.as_slice())?;
    let mut elements = Vec::new(alloc);
    add_references(alloc, cell.instances.as_slice(), &mut elements)?;
    add_boundaries(alloc, layers, &wires, &mut elements)?;
    add_texts(alloc, layers, &labels, &mut elements)?;
    Ok(Structure {
        name,
        elements: Items::from_vec(elements),
    })
}
