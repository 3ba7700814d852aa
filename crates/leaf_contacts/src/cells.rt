ghost use Rattle.std.specs.Prelude.{◌≡◌, ◌↔◌, ◌⊎◌, ◌≤◌, ◌<◌, [], IsTrue, IfOk, Contains, Some, length, slice_get};
ghost use Rattle.std.specs.List.{AllByRecursion};
ghost use Rattle.gds_library.specs.Writable.{IsWritableCell};
ghost use Rattle.cell_hierarchy.specs.Drawings.{AreAllCells};
ghost use Rattle.leaf_contacts.specs.Contact.{leaf_cell_names};
ghost use Rattle.leaf_contacts.specs.Stands.{AreCellSummaries, AreReachedCells, CountsAt, IsCellNamed, IsCellSummary};
ghost use Rattle.leaf_contacts.specs.Stands.{LeadsToCounted, RefersToCounted};

use cell_chains::Cell;
use element_drawing::own_shapes;
use gds_library::{Element, Structure};
use leaf_nets::LooseLeaf;
use or_geom::{Memory, Name, Shape};
use std::alloc::Global;
use tech_rules::Layer;

/// What is looked at of a cell: the shapes that it draws itself, whether it is one of the leaf cells, and whether it
/// counts. A cell that is no leaf cell and below which nothing is drawn doesn't, however often it is placed.
#[derive(Drop)]
pub struct CellSummary {
    pub shapes: Vec<Shape>,
    pub is_leaf: bool,
    pub counts: bool,
}

/// The cells that a top reaches, from the bottom up, each with its summary. The layers and the top's name are told for
/// proofs alone.
#[derive(Clone, Copy)]
pub struct ReachedCells<'a> {
    pub layers: &'a [Layer],
    pub leaves: &'a [LooseLeaf],
    pub top: &'a Name,
    pub structs: &'a [Structure],
    pub cells: &'a [Cell],
    pub summaries: &'a [CellSummary],
}

/// The structure at this index.
pub fn structure_at(structs: &[Structure], index: usize) -> &Structure
    requires { index < length structs.now }
    ensures { slice_get structs.now index ≡ Some result.now }
{
    &structs[index]
}

/// The summary at this index.
pub fn summary_at(summaries: &[CellSummary], index: usize) -> &CellSummary
    requires { index < length summaries.now }
    ensures { slice_get summaries.now index ≡ Some result.now }
{
    &summaries[index]
}

/// Whether the cell at this index has the name.
pub fn is_cell_named(tree: &ReachedCells, cell: usize, name: &Name) -> bool
    requires tree { AreReachedCells tree.now }
    requires cell { cell < length tree.now.cells.now }
    ensures { IsTrue result ↔ IsCellNamed tree.now cell name.now }
{
    let structure = structure_at(tree.structs, tree.cells[cell].structure);
    name.is(structure.name.as_bytes())
}

/// Whether one of the leaf cells has the name.
fn is_leaf(leaves: &[LooseLeaf], name: &Name) -> bool
    ensures { IsTrue result ↔ Contains (leaf_cell_names leaves.now) name.now }
{
    for leaf in leaves {
        if leaf.cell.is(name.as_bytes()) {
            return true;
        }
    }
    false
}

/// Whether there is a summary at this index, and it counts.
pub fn counts_at(summaries: &[CellSummary], index: usize) -> bool
    ensures { IsTrue result ↔ CountsAt summaries.now index }
{
    match summaries.get(index) {
        Some(summary) => summary.counts,
        None => false,
    }
}

/// Whether an element refers to a cell that counts.
fn leads_to_counted(element: &Element, target: usize, summaries: &[CellSummary]) -> bool
    ensures { IsTrue result ↔ LeadsToCounted element.now target summaries.now }
{
    match element {
        Element::Sref { .. } => counts_at(summaries, target),
        Element::Aref { .. } => counts_at(summaries, target),
        Element::Boundary { .. } | Element::Path { .. } | Element::Text { .. } => false,
    }
}

/// Whether one of the elements refers to a cell that counts. `targets` has for each element that refers to a structure
/// the index of its cell.
fn refers_to_counted(elements: &[Element], targets: &[usize], summaries: &[CellSummary]) -> bool
    requires { length targets.now ≡ length elements.now }
    ensures { IsTrue result ↔ RefersToCounted elements.now targets.now summaries.now }
{
    for index in 0..elements.len() {
        if leads_to_counted(&elements[index], targets[index], summaries) {
            return true;
        }
    }
    false
}

/// Whether a cell that draws these shapes itself counts.
fn is_counted(
    is_leaf: bool,
    shapes: &[Shape],
    elements: &[Element],
    targets: &[usize],
    below: &[CellSummary],
) -> bool
    requires { length targets.now ≡ length elements.now }
    ensures { IsTrue result ↔ (IsTrue is_leaf
        ⊎ ((shapes.now ≡ [] → ⊥) ⊎ RefersToCounted elements.now targets.now below.now)) }
{
    is_leaf || !shapes.is_empty() || refers_to_counted(elements, targets, below)
}

/// The summary of a cell, over those of the cells below it.
fn summary_of(
    alloc: Global,
    layers: &[Layer],
    leaves: &[LooseLeaf],
    structure: &Structure,
    targets: &[usize],
    below: &[CellSummary],
) -> Result<CellSummary, Memory>
    requires few { length layers.now ≤ 64 }
    requires writable { IsWritableCell structure.now }
    requires sized { length targets.now ≡ length structure.now.elements }
    ensures { IfOk result (IsCellSummary layers.now (leaf_cell_names leaves.now) structure.now targets.now below.now) }
{
    let elements = structure.elements.as_slice();
    let shapes = own_shapes(alloc, layers, elements)?;
    let is_leaf = is_leaf(leaves, &structure.name);
    let counts = is_counted(is_leaf, &shapes, elements, targets, below);
    Ok(CellSummary {
        shapes,
        is_leaf,
        counts,
    })
}

/// The summary of each cell, from the bottom up.
pub fn summaries_of(
    alloc: Global,
    layers: &[Layer],
    leaves: &[LooseLeaf],
    structs: &[Structure],
    cells: &[Cell],
) -> Result<Vec<CellSummary>, Memory>
    requires few { length layers.now ≤ 64 }
    requires writable { AllByRecursion IsWritableCell structs.now }
    requires cells { AreAllCells structs.now cells.now }
    ensures { IfOk result (λ summaries. AreCellSummaries layers.now (leaf_cell_names leaves.now) structs.now cells.now
        (length cells.now) summaries.items) }
{
    let mut summaries = Vec::new(alloc);
    for cell in cells {
        let structure = structure_at(structs, cell.structure);
        let targets = cell.targets.as_slice();
        let summary = summary_of(alloc, layers, leaves, structure, targets, &summaries)?;
        summaries.push(summary)?;
    }
    Ok(summaries)
}
