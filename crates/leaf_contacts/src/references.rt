ghost use Rattle.std.specs.Prelude.{◌≡◌, ◌++◌, ◌∷◌, [], ◌<◌, ◌^◌, ◌+ℤ◌, ◌*ℤ◌, FitsSigned, ℕ, pos, List, IfOk, OnOk};
ghost use Rattle.std.specs.Prelude.{length};
ghost use Rattle.std.specs.Int.{w32};
ghost use Rattle.std.specs.Option.{option_copied};
ghost use Rattle.or_geom.specs.Place.{IsNearPoint, IsWithin};
ghost use Rattle.gds_library.specs.Writable.{IsWritableArray};
ghost use Rattle.cell_chains.specs.Instances.{item_place};
ghost use Rattle.cell_hierarchy.specs.Below.{SomeBelow};
ghost use Rattle.cell_hierarchy.specs.Grid.{IsShortWay};
ghost use Rattle.leaf_contacts.specs.Chains.{Reference};
ghost use Rattle.leaf_contacts.specs.Stands.{AddsBelow, instance_below, HasContent, IsElementAt, IsCellNamed, IsGridOf};
ghost use Rattle.leaf_contacts.specs.Stands.{IsGridItem, IsLiveFrom, IsLiveReference, IsReferenceAt, IsStandOf};
ghost use Rattle.leaf_contacts.specs.Stands.{AreReachedCells};

use crate::cells::{ReachedCells, counts_at, structure_at};
use crate::stand::{ReferenceStep, Stand};
use bumpalo::Bump;
use gds_library::Element;
use or_geom::{Memory, Place, Point};
use std::alloc::Global;

/// An array of references: the index of its element, the index of the cell to which it refers, and where its items lie.
#[derive(Clone, Copy)]
pub struct Grid {
    pub element: usize,
    pub target: usize,
    pub place: Place,
    pub columns: u16,
    pub rows: u16,
    pub across: Point,
    pub down: Point,
}

/// An element of a cell, with its index there and, where it refers to a structure, the index of that structure's cell.
#[derive(Clone, Copy)]
struct CellElement<'a> {
    element: &'a Element,
    index: usize,
    target: usize,
}

/// The references and one more, in the arena.
fn steps_with<'b>(
    alloc: Global,
    bump: &'b Bump,
    steps: &[ReferenceStep],
    step: ReferenceStep,
) -> Result<&'b [ReferenceStep], Memory>
    ensures { IfOk result (λ longer. longer.now ≡ steps.now ++ step ∷ []) }
{
    let mut longer = Vec::from_slice(alloc, steps)?;
    longer.push(step)?;
    Ok(bump.try_alloc_slice_copy(&longer)?)
}

/// The instance in which a cell stands to which these references lead: that of the cell above or, where that is in
/// none, itself if it is a leaf cell.
pub fn instance_below<'b>(
    above: Option<&'b [ReferenceStep]>,
    is_leaf: bool,
    steps: &'b [ReferenceStep],
) -> Option<&'b [ReferenceStep]>
    ensures { option_copied result ≡ instance_below (option_copied above.entry) is_leaf steps.now }
{
    match above {
        Some(instance) => Some(instance),
        None => { if is_leaf { Some(steps) } else { None } }
    }
}

/// Where a cell stands that is placed there in one that stands at `outer`.
fn stand_below<'b>(
    alloc: Global,
    bump: &'b Bump,
    tree: &ReachedCells,
    outer: &Stand<'b>,
    step: ReferenceStep,
    target: usize,
    place: Place,
) -> Result<Stand<'b>, Memory>
    requires tree { AreReachedCells tree.now }
    requires target { target < length tree.now.summaries.now }
    requires near { IsNearPoint outer.now.place.at }
    requires place { IsWithin (2 ^ 33) place.at }
    ensures { IfOk result (λ made. (chain : List Reference) (r : Reference) → IsStandOf tree.now chain outer.now
        → IsReferenceAt tree.now outer.now.cell target step place r → IsStandOf tree.now (chain ++ r ∷ []) made) }
{
    let steps = steps_with(alloc, bump, outer.steps, step)?;
    Ok(Stand {
        cell: target,
        place: outer.place.then(place),
        steps,
        instance: instance_below(outer.instance, tree.summaries[target].is_leaf, steps),
    })
}

/// So many steps of one length from a coordinate.
#[derive(Clone, Copy)]
struct AxisSteps {
    from: i64,
    count: u16,
    length: i64,
}

/// Where the steps lead.
fn end_of(steps: AxisSteps) -> i64
    requires from { FitsSigned w32 steps.from }
    requires way { IsShortWay steps.count steps.length }
    ensures { result ≡ steps.from +ℤ pos steps.count *ℤ steps.length }
{
    let way = i64::from(steps.count) * steps.length;
    steps.from + way
}

/// The place of an array's item.
fn place_at(grid: &Grid, column: u16, row: u16) -> Place
    requires writable { IsWritableArray grid.now.place (pos grid.now.columns)
        (pos grid.now.rows) grid.now.across grid.now.down }
    requires column { column < grid.now.columns }
    requires row { row < grid.now.rows }
    ensures is { result ≡ item_place grid.now.place column row grid.now.across grid.now.down }
    ensures near { IsWithin (2 ^ 33) result.at }
{
    let across_x = end_of(AxisSteps {
        from: grid.place.at.x,
        count: column,
        length: grid.across.x,
    });
    let across_y = end_of(AxisSteps {
        from: grid.place.at.y,
        count: column,
        length: grid.across.y,
    });
    let x = end_of(AxisSteps {
        from: across_x,
        count: row,
        length: grid.down.x,
    });
    let y = end_of(AxisSteps {
        from: across_y,
        count: row,
        length: grid.down.y,
    });
    Place {
        orient: grid.place.orient,
        at: Point { x, y },
    }
}

/// Adds the items of a column of the array.
fn add_column<'b>(
    alloc: Global,
    bump: &'b Bump,
    tree: &ReachedCells,
    outer: &Stand<'b>,
    grid: &Grid,
    column: u16,
    out: &mut Vec<Stand<'b>>,
) -> Result<(), Memory>
    requires tree { AreReachedCells tree.now }
    requires near { IsNearPoint outer.now.place.at }
    requires grid { IsGridOf tree.now outer.now.cell grid.now }
    requires column { column < grid.now.columns }
    ensures { OnOk result ((chain : List Reference) (to : List ℕ) → IsStandOf tree.now chain outer.now
        → IsCellNamed tree.now grid.now.target to
        → AddsBelow tree.now chain (SomeBelow (IsGridItem grid.now to column) grid.now.rows) out.old.items
        out.new.items) }
{
    for row in 0..grid.rows {
        let step = ReferenceStep {
            element: grid.element,
            column,
            row,
        };
        let place = place_at(grid, column, row);
        let made = stand_below(alloc, bump, tree, outer, step, grid.target, place)?;
        out.push(made)?;
    }
    Ok(())
}

/// Adds the items of the array.
fn add_array<'b>(
    alloc: Global,
    bump: &'b Bump,
    tree: &ReachedCells,
    outer: &Stand<'b>,
    grid: &Grid,
    out: &mut Vec<Stand<'b>>,
) -> Result<(), Memory>
    requires tree { AreReachedCells tree.now }
    requires near { IsNearPoint outer.now.place.at }
    requires grid { IsGridOf tree.now outer.now.cell grid.now }
    ensures { OnOk result ((chain : List Reference) (to : List ℕ) → IsStandOf tree.now chain outer.now
        → IsCellNamed tree.now grid.now.target to
        → AddsBelow tree.now chain (SomeBelow (λ column. SomeBelow (IsGridItem grid.now to column) grid.now.rows)
        grid.now.columns) out.old.items out.new.items) }
{
    for column in 0..grid.columns {
        add_column(alloc, bump, tree, outer, grid, column, out)?;
    }
    Ok(())
}

/// The elements of a cell, and for each that refers to a structure the index of its cell.
fn content_of<'a>(tree: &ReachedCells<'a>, cell: usize) -> (&'a [Element], &'a [usize])
    requires tree { AreReachedCells tree.now }
    requires cell { cell < length tree.now.cells.now }
    ensures { HasContent tree.now cell result.0.now result.1.now }
{
    let cell = &tree.cells[cell];
    let structure = structure_at(tree.structs, cell.structure);
    (structure.elements.as_slice(), cell.targets.as_slice())
}

/// Adds the cells that an element of the cell places there, if they count.
fn add_element<'b>(
    alloc: Global,
    bump: &'b Bump,
    tree: &ReachedCells,
    outer: &Stand<'b>,
    entry: &CellElement,
    out: &mut Vec<Stand<'b>>,
) -> Result<(), Memory>
    requires tree { AreReachedCells tree.now }
    requires near { IsNearPoint outer.now.place.at }
    requires element { IsElementAt tree.now outer.now.cell entry.now.index entry.now.element.now entry.now.target }
    ensures { OnOk result ((chain : List Reference) (name : List ℕ) → IsStandOf tree.now chain outer.now
        → IsCellNamed tree.now outer.now.cell name
        → AddsBelow tree.now chain (IsLiveReference tree.now name entry.now.index) out.old.items out.new.items) }
{
    match entry.element {
        Element::Sref { place, .. } => {
            if !counts_at(tree.summaries, entry.target) {
                return Ok(());
            }
            let step = ReferenceStep {
                element: entry.index,
                column: 0,
                row: 0,
            };
            let made = stand_below(alloc, bump, tree, outer, step, entry.target, *place)?;
            out.push(made)?;
            Ok(())
        }
        Element::Aref {
            place,
            columns,
            rows,
            across,
            down,
            ..
        } => {
            if !counts_at(tree.summaries, entry.target) {
                return Ok(());
            }
            let grid = Grid {
                element: entry.index,
                target: entry.target,
                place: *place,
                columns: columns.unsigned_abs(),
                rows: rows.unsigned_abs(),
                across: *across,
                down: *down,
            };
            add_array(alloc, bump, tree, outer, &grid, out)
        }
        Element::Boundary { .. } | Element::Path { .. } | Element::Text { .. } => Ok(()),
    }
}

/// Adds the cells that stand directly below this one and count.
pub fn add_below<'b>(
    alloc: Global,
    bump: &'b Bump,
    tree: &ReachedCells,
    outer: &Stand<'b>,
    out: &mut Vec<Stand<'b>>,
) -> Result<(), Memory>
    requires tree { AreReachedCells tree.now }
    requires near { IsNearPoint outer.now.place.at }
    requires cell { outer.now.cell < length tree.now.cells.now }
    ensures { OnOk result ((chain : List Reference) (name : List ℕ) → IsStandOf tree.now chain outer.now
        → IsCellNamed tree.now outer.now.cell name
        → AddsBelow tree.now chain (IsLiveFrom tree.now name) out.old.items out.new.items) }
{
    let (elements, targets) = content_of(tree, outer.cell);
    for index in 0..elements.len() {
        let entry = CellElement {
            element: &elements[index],
            index,
            target: targets[index],
        };
        add_element(alloc, bump, tree, outer, &entry, out)?;
    }
    Ok(())
}
