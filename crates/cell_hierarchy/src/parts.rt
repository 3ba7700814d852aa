ghost use Rattle.std.specs.Prelude.{◌≡◌, ◌<◌, ◌≤◌, ◌^◌, ◌↔◌, IsTrue, map, length, slice_get, Some, IfOk};
ghost use Rattle.std.specs.Str.{IsAscii};
ghost use Rattle.std.specs.List.{AllByRecursion};
ghost use Rattle.std.specs.List.Sorted.{IsPermutation};
ghost use Rattle.gds_library.specs.declared.library.Structure.{Structure};
ghost use Rattle.gds_library.specs.Writable.{IsWritableElement, IsWritableCell};
ghost use Rattle.element_drawing.specs.ElementLabels.{pathless};
ghost use Rattle.cell_hierarchy.specs.Drawings.{AreAllCells, IsDrawingOf, IsSomeAt, LeadsToSome, IsLiveOf, IsCellPart};
ghost use Rattle.cell_hierarchy.specs.Drawings.{AreCellParts, IsBlank};
ghost use Rattle.cell_hierarchy.specs.Plain.{plain_label};

use crate::arena::text_in;
use crate::drawing::OwnDrawing;
use crate::flat::Label;
use bumpalo::Bump;
use cell_chains::{Cell, by_name};
use element_drawing::{ElementLabel, own_labels, own_shapes};
use gds_library::{Element, Structure};
use or_geom::{Memory, Point};
use std::alloc::Global;
use tech_rules::Layer;

/// A cell's own drawing, and its references that count: the elements at these indices lead to cells that draw
/// something.
#[derive(Drop)]
pub struct CellPart<'b> {
    pub own: OwnDrawing<'b>,
    pub live: Vec<usize>,
}

/// The labels, with their texts in the arena.
fn labels_in<'b>(
    alloc: Global,
    bump: &'b Bump,
    texts: &[ElementLabel],
) -> Result<Vec<Label<'b>>, Memory>
    requires { AllByRecursion (λ text. IsAscii text.name.now) texts.now }
    ensures { IfOk result (λ labels. map plain_label labels.items ≡ map pathless texts.now) }
{
    let mut labels = Vec::with_capacity(alloc, texts.len())?;
    for text in texts {
        labels.push(Label {
            path: "",
            name: text_in(bump, text.name)?,
            layer: text.layer,
            at: text.at,
        })?;
    }
    Ok(labels)
}

/// The labels in their order: then those that are gathered of all cells are mostly in order before they are sorted.
fn sorted_labels_in<'b>(
    alloc: Global,
    bump: &'b Bump,
    texts: &[ElementLabel],
) -> Result<Vec<Label<'b>>, Memory>
    requires { AllByRecursion (λ text. IsAscii text.name.now) texts.now }
    ensures { IfOk result (λ labels. IsPermutation (map pathless texts.now) (map plain_label labels.items)) }
{
    let mut labels = labels_in(alloc, bump, texts)?;
    labels.sort_unstable();
    Ok(labels)
}

/// The points of the labels.
fn points_of(alloc: Global, texts: &[ElementLabel]) -> Result<Vec<Point>, Memory>
    ensures { IfOk result (λ points. points.items ≡ map (λ text. text.at) texts.now) }
{
    let mut points = Vec::with_capacity(alloc, texts.len())?;
    for text in texts {
        points.push(text.at)?;
    }
    Ok(points)
}

/// What the elements draw themselves.
fn drawing_of<'b>(
    alloc: Global,
    bump: &'b Bump,
    layers: &[Layer],
    elements: &[Element],
    keeps_labels: bool,
) -> Result<OwnDrawing<'b>, Memory>
    requires few { length layers.now ≤ 64 }
    requires writable { AllByRecursion IsWritableElement elements.now }
    ensures { IfOk result (IsDrawingOf layers.now keeps_labels elements.now) }
{
    let shapes = own_shapes(alloc, layers, elements)?;
    let texts = own_labels(alloc, layers, elements)?;
    let labels = if keeps_labels {
        sorted_labels_in(alloc, bump, &texts)?
    } else {
        Vec::new(alloc)
    };
    let points = points_of(alloc, &texts)?;
    Ok(OwnDrawing {
        shapes,
        labels,
        points,
    })
}

/// Whether a cell and all cells below it draw nothing.
fn is_blank(part: &CellPart) -> bool
    ensures { IsTrue result ↔ IsBlank part.now }
{
    part.own.shapes.is_empty()
        && part.own.labels.is_empty()
        && part.own.points.is_empty()
        && part.live.is_empty()
}

/// Whether there is a part at this index, and it isn't blank.
fn is_some_at(parts: &[CellPart], index: usize) -> bool
    ensures { IsTrue result ↔ IsSomeAt parts.now index }
{
    match parts.get(index) {
        Some(part) => !is_blank(part),
        None => false,
    }
}

/// Whether an element refers to a cell that draws something.
fn leads_to_some(element: &Element, target: usize, parts: &[CellPart]) -> bool
    ensures { IsTrue result ↔ LeadsToSome element.now target parts.now }
{
    match element {
        Element::Sref { .. } => is_some_at(parts, target),
        Element::Aref { .. } => is_some_at(parts, target),
        Element::Boundary { .. } | Element::Path { .. } | Element::Text { .. } => false,
    }
}

/// The elements that lead to cells which draw something: `parts` has the cells so far, and `targets` for each element
/// that refers to a structure the index of its cell.
fn live_references(
    alloc: Global,
    elements: &[Element],
    targets: &[usize],
    parts: &[CellPart],
) -> Result<Vec<usize>, Memory>
    requires { length targets.now ≡ length elements.now }
    ensures { IfOk result (λ live. IsLiveOf elements.now targets.now parts.now live.items) }
{
    let mut live = Vec::new(alloc);
    for n in 0..elements.len() {
        if leads_to_some(&elements[n], targets[n], parts) {
            live.push(n)?;
        }
    }
    Ok(live)
}

/// Where labels are kept, sorts the references that count by the names of their instances: a walk in this order gathers
/// labels mostly in the order of their paths, which then take less time to sort.
fn ordered_references(
    alloc: Global,
    elements: &[Element],
    _targets: &[usize],
    _parts: &[CellPart],
    live: Vec<usize>,
    keeps_labels: bool,
) -> Result<Vec<usize>, Memory>
    requires { IsLiveOf elements.now _targets.now _parts.now live.items }
    ensures { IfOk result (λ ordered. IsLiveOf elements.now _targets.now _parts.now ordered.items) }
{
    if !keeps_labels {
        return Ok(live);
    }
    let ordered = by_name(alloc, elements, &live)?;
    Ok(ordered)
}

/// The part of a cell, over those of the cells below it.
fn part_of<'b>(
    alloc: Global,
    bump: &'b Bump,
    layers: &[Layer],
    structs: &[Structure],
    cell: &Cell,
    below: &[CellPart<'b>],
    keeps_labels: bool,
) -> Result<CellPart<'b>, Memory>
    requires few { length layers.now ≤ 64 }
    requires writable { AllByRecursion IsWritableCell structs.now }
    requires stands { cell.now.structure < length structs.now }
    requires sized { (s : Structure) → slice_get structs.now cell.now.structure ≡ Some s
        → length cell.now.targets ≡ length s.elements }
    ensures { IfOk result (IsCellPart layers.now keeps_labels structs.now cell.now below.now) }
{
    let elements = structs[cell.structure].elements.as_slice();
    let own = drawing_of(alloc, bump, layers, elements, keeps_labels)?;
    let targets = cell.targets.as_slice();
    let live = live_references(alloc, elements, targets, below)?;
    let live = ordered_references(alloc, elements, targets, below, live, keeps_labels)?;
    Ok(CellPart { own, live })
}

/// The part of each cell, from the bottom up.
pub fn parts_of<'b>(
    alloc: Global,
    bump: &'b Bump,
    layers: &[Layer],
    structs: &[Structure],
    cells: &[Cell],
    keeps_labels: bool,
) -> Result<Vec<CellPart<'b>>, Memory>
    requires few { length layers.now ≤ 64 }
    requires writable { AllByRecursion IsWritableCell structs.now }
    requires cells { AreAllCells structs.now cells.now }
    ensures { IfOk result (λ parts. AreCellParts layers.now keeps_labels structs.now cells.now
        (length cells.now) parts.items) }
{
    let mut parts = Vec::new(alloc);
    for cell in cells {
        let part = part_of(alloc, bump, layers, structs, cell, &parts, keeps_labels)?;
        parts.push(part)?;
    }
    Ok(parts)
}
