ghost use Rattle.std.specs.Prelude.{◌≡◌, ◌<◌, ℕ, List, OnOk};
ghost use Rattle.cell_chains.specs.Hierarchy.{IsCellOf};
ghost use Rattle.cell_chains.specs.Ordered.{AreAllBelow};
ghost use Rattle.cell_hierarchy.specs.Below.{SomeBelow};
ghost use Rattle.cell_hierarchy.specs.Grid.{IsWritableGrid, IsSpotOf};
ghost use Rattle.cell_hierarchy.specs.Things.{GatheredGrows};
ghost use Rattle.cell_hierarchy.specs.Parts.{IsCellTree, IsPlacedAt, IsBelowAt, IsLiveAt, IsElementOf, IsOfElement};
ghost use Rattle.cell_hierarchy.specs.Parts.{IsOfCellIn, IsOfArrayItem};

use crate::gathered::Gathered;
use crate::grid::{ItemGrid, Spot};
use crate::own::add_own;
use crate::placement::{Placement, item_below, reference_below};
use crate::tree::Tree;
use bumpalo::Bump;
use cell_chains::numbers_below;
use gds_library::Element;
use or_geom::Memory;
use std::alloc::Global;

/// An array: the element at index `n` of its cell, where the cell to which it refers is `target`.
#[derive(Clone, Copy)]
pub struct ArrayBelow {
    pub n: usize,
    pub target: usize,
    pub grid: ItemGrid,
}

/// The items of a column of an array: the rows are those of the array, in the order in which the items are visited.
#[derive(Clone, Copy)]
struct ColumnItems<'a> {
    column: u16,
    rows: &'a [u16],
}

/// The element at index `n` of a cell, and the cell to which it refers.
fn element_at<'a>(tree: &Tree<'a, '_>, index: usize, n: usize) -> (&'a Element, usize)
    requires tree { IsCellTree tree.now }
    requires live { IsLiveAt tree.now index n }
    ensures { IsElementOf tree.now index n result.0.now result.1 }
{
    let cell = &tree.cells[index];
    let target = cell.targets.as_slice()[n];
    (&tree.structs[cell.structure].elements.as_slice()[n], target)
}

/// Adds what a cell draws and what all cells below it draw, where the cell stands there.
#[cycle(walk)]
pub fn add_cell<'b>(
    alloc: Global,
    bump: &'b Bump,
    tree: &Tree<'_, 'b>,
    index: usize,
    at: &Placement<'b>,
    out: &mut Gathered<'b>,
) -> Result<(), Memory>
    requires tree { IsCellTree tree.now }
    requires at { IsPlacedAt tree.now index at.now }
    ensures { OnOk result ((name : List ℕ) → IsCellOf tree.now.structs.now tree.now.cells.now index name
        → GatheredGrows out.old out.new (IsOfCellIn tree.now at.now name)) }
{
    let part = &tree.parts[index];
    add_own(at, &part.own, out)?;
    for i in 0..part.live.len() {
        add_element(alloc, bump, tree, index, at, part.live[i], out)?;
    }
    Ok(())
}

/// Adds what a reference or an array takes over: the element at index `n` of the cell, which stands there.
#[cycle(walk)]
fn add_element<'b>(
    alloc: Global,
    bump: &'b Bump,
    tree: &Tree<'_, 'b>,
    index: usize,
    at: &Placement<'b>,
    n: usize,
    out: &mut Gathered<'b>,
) -> Result<(), Memory>
    requires tree { IsCellTree tree.now }
    requires at { IsPlacedAt tree.now index at.now }
    requires live { IsLiveAt tree.now index n }
    ensures { OnOk result (GatheredGrows out.old out.new (IsOfElement tree.now index at.now n)) }
{
    let (element, target) = element_at(tree, index, n);
    match element {
        Element::Sref { place, props, .. } => {
            let keeps_labels = tree.keeps_labels;
            let inner = reference_below(
                alloc,
                bump,
                keeps_labels,
                at,
                n,
                props.as_slice(),
                *place,
            )?;
            add_cell(alloc, bump, tree, target, &inner, out)
        }
        Element::Aref {
            place,
            columns,
            rows,
            across,
            down,
            ..
        } => {
            let grid = ItemGrid {
                place: *place,
                columns: columns.unsigned_abs(),
                rows: rows.unsigned_abs(),
                across: *across,
                down: *down,
            };
            add_array(alloc, bump, tree, ArrayBelow { n, target, grid }, at, out)
        }
        Element::Boundary { .. } | Element::Path { .. } | Element::Text { .. } => Ok(()),
    }
}

/// Adds what the items of an array take over, where its cell stands there. Where labels are kept the columns come in
/// the order of the items' names, and so do the rows of each: labels are then mostly in order before they are sorted.
#[cycle(walk)]
fn add_array<'b>(
    alloc: Global,
    bump: &'b Bump,
    tree: &Tree<'_, 'b>,
    array: ArrayBelow,
    at: &Placement<'b>,
    out: &mut Gathered<'b>,
) -> Result<(), Memory>
    requires tree { IsCellTree tree.now }
    requires at { IsBelowAt tree.now array.target at.now }
    requires writable { IsWritableGrid array.grid }
    ensures { OnOk result ((name : List ℕ) → IsCellOf tree.now.structs.now tree.now.cells.now array.target name
        → GatheredGrows out.old out.new (SomeBelow
        (λ column. SomeBelow (IsOfArrayItem tree.now at.now array name column) array.grid.rows) array.grid.columns)) }
{
    let columns = numbers_below(alloc, array.grid.columns, tree.keeps_labels)?;
    let rows = numbers_below(alloc, array.grid.rows, tree.keeps_labels)?;
    for i in 0..columns.len() {
        let items = ColumnItems {
            column: columns[i],
            rows: &rows,
        };
        add_column(alloc, bump, tree, array, items, at, out)?;
    }
    Ok(())
}

/// Adds what the items of a column take over.
#[cycle(walk)]
fn add_column<'b>(
    alloc: Global,
    bump: &'b Bump,
    tree: &Tree<'_, 'b>,
    array: ArrayBelow,
    items: ColumnItems<'_>,
    at: &Placement<'b>,
    out: &mut Gathered<'b>,
) -> Result<(), Memory>
    requires tree { IsCellTree tree.now }
    requires at { IsBelowAt tree.now array.target at.now }
    requires writable { IsWritableGrid array.grid }
    requires in_grid { items.column < array.grid.columns }
    requires rows { AreAllBelow array.grid.rows items.rows.now }
    ensures { OnOk result ((name : List ℕ) → IsCellOf tree.now.structs.now tree.now.cells.now array.target name
        → GatheredGrows out.old out.new (SomeBelow
        (IsOfArrayItem tree.now at.now array name items.entry.column) array.grid.rows)) }
{
    for row in items.rows {
        let spot = Spot {
            column: items.column,
            row: *row,
        };
        add_item(alloc, bump, tree, array, spot, at, out)?;
    }
    Ok(())
}

/// Adds what one item of an array takes over.
#[cycle(walk)]
fn add_item<'b>(
    alloc: Global,
    bump: &'b Bump,
    tree: &Tree<'_, 'b>,
    array: ArrayBelow,
    spot: Spot,
    at: &Placement<'b>,
    out: &mut Gathered<'b>,
) -> Result<(), Memory>
    requires tree { IsCellTree tree.now }
    requires at { IsBelowAt tree.now array.target at.now }
    requires writable { IsWritableGrid array.grid }
    requires spot { IsSpotOf array.grid spot }
    ensures { OnOk result ((name : List ℕ) → IsCellOf tree.now.structs.now tree.now.cells.now array.target name
        → GatheredGrows out.old out.new (IsOfArrayItem tree.now at.now array name spot.column spot.row)) }
{
    let inner = item_below(
        alloc,
        bump,
        tree.keeps_labels,
        at,
        array.n,
        array.grid,
        spot,
    )?;
    add_cell(alloc, bump, tree, array.target, &inner, out)
}
