ghost use Rattle.std.specs.Prelude.{◌≡◌, ◌↔◌, ◌≤◌, ◌<◌, ℕ, List, Contains, IfOk, OnOk, IsTrue, Some, [], length};
ghost use Rattle.std.specs.Prelude.{slice_get};
ghost use Rattle.std.specs.Option.{option_copied};
ghost use Rattle.or_geom.specs.Adds.{Adds};
ghost use Rattle.or_geom.specs.Containing.{HoldsRect};
ghost use Rattle.or_geom.specs.Gathering.{SomeGives, SomeHas};
ghost use Rattle.or_geom.specs.Place.{IsNearPoint};
ghost use Rattle.or_geom.specs.Reachable.{AreReachable};
ghost use Rattle.gds_library.specs.Writable.{IsWritable};
ghost use Rattle.cell_chains.specs.Chains.{IsSound};
ghost use Rattle.cell_chains.specs.Hierarchy.{AreCells};
ghost use Rattle.cell_hierarchy.specs.FlatLists.{AreFlatShapes};
ghost use Rattle.cell_hierarchy.specs.FlatSet.{IsMoved};
ghost use Rattle.leaf_contacts.specs.Contact.{HasLooseContact};
ghost use Rattle.leaf_contacts.specs.Marks.{AreLayoutEntries, AreMarks, AreNearLeaves, AreStandsIn, HasContactAt};
ghost use Rattle.leaf_contacts.specs.Marks.{IsContactOf, IsContactWith, IsListedElsewhere, IsNearOnLayers};
ghost use Rattle.leaf_contacts.specs.Marks.{IsTouchedElsewhere, IsTouching, ShapeEntry, TouchesElsewhere};
ghost use Rattle.leaf_contacts.specs.Stands.{AreReachedCells};

use crate::cells::{ReachedCells, is_cell_named, summaries_of};
use crate::levels::stands_of;
use crate::marks::{Mark, is_elsewhere, marks_of};
use crate::stand::{ReferenceStep, Stand, are_same};
use crate::touching::touch_or_same;
use bumpalo::Bump;
use cell_chains::{Cell, ChainFault, cells_below};
use gds_library::Library;
use leaf_nets::LooseLeaf;
use or_geom::{Memory, Name, Place, Rect, Shape, around};
use shape_bins::Bins;
use std::alloc::Global;
use tech_rules::{Connect, Tech};

/// The flat layout that is looked at: its technology, its cells, its shapes, and in which instances they stand.
#[derive(Clone, Copy)]
pub struct MarkedLayout<'a, 'b> {
    pub tech: &'a Tech,
    pub tree: &'a ReachedCells<'a>,
    pub bins: &'a Bins<'b>,
    pub marks: &'a [Option<Mark<'b>>],
}

/// Adds the shapes as they lie where their cell stands.
fn add_moved(place: Place, loose: &[Shape], moved: &mut Vec<Shape>) -> Result<(), Memory>
    requires near { IsNearPoint place.at }
    requires loose { AreReachable loose.now }
    ensures { OnOk result (Adds moved.old.items moved.new.items (SomeGives (IsMoved place) loose.now)) }
{
    for shape in loose {
        let image = Shape {
            layer: shape.layer,
            rect: place.apply(shape.rect),
        };
        moved.push(image)?;
    }
    Ok(())
}

/// A rectangle that contains each of the shapes. It grows from that of the first.
fn hull_of(first: Shape, shapes: &[Shape]) -> Rect
    ensures { (shape : Shape) → Contains shapes.now shape → HoldsRect result shape.rect }
{
    let mut hull = first.rect;
    for shape in shapes {
        hull = around(hull, shape.rect);
    }
    hull
}

/// Adds the places of all shapes on the first layers whose closed box meets the area.
fn add_near(bins: &Bins, layers: usize, area: Rect, places: &mut Vec<usize>) -> Result<(), Memory>
    requires { layers ≤ 64 }
    ensures { OnOk result (Adds places.old.items places.new.items (IsNearOnLayers bins.now area layers)) }
{
    for layer in 0..layers {
        bins.add_near(layer as u16, area, places)?;
    }
    Ok(())
}

/// Whether the flat shape at this place stands elsewhere than in the instance.
fn stands_elsewhere(layout: &MarkedLayout, place: usize, instance: &[ReferenceStep]) -> bool
    requires { place < length layout.now.marks.now }
    ensures { (entries : List ShapeEntry) (shape : Shape) → AreMarks layout.now.bins.now entries layout.now.marks.now
        → slice_get layout.now.bins.now place ≡ Some shape
        → IsTrue result ↔ IsListedElsewhere entries shape (Some instance.now) }
{
    match layout.marks[place] {
        Some(mark) => is_elsewhere(&mark, instance),
        None => false,
    }
}

/// The flat shape at this place.
fn shape_at(layout: &MarkedLayout, place: usize) -> Shape
    requires { place < length layout.now.bins.now }
    ensures { slice_get layout.now.bins.now place ≡ Some result }
{
    layout.bins.shapes()[place]
}

/// Whether one of the shapes touches the other, or is it.
fn touches_one(connects: &[Connect], moved: &[Shape], other: Shape) -> bool
    ensures { IsTrue result ↔ SomeHas (IsTouching connects.now other) moved.now }
{
    for shape in moved {
        if touch_or_same(connects, *shape, other) {
            return true;
        }
    }
    false
}

/// Whether one of the shapes touches the flat shape at this place, and that stands elsewhere than in the instance. Few
/// of those nearby do, so this is asked first.
fn touches_at(
    layout: &MarkedLayout,
    moved: &[Shape],
    instance: &[ReferenceStep],
    place: usize,
) -> bool
    requires within { place < length layout.now.bins.now }
    requires marks { length layout.now.marks.now ≡ length layout.now.bins.now }
    ensures { (entries : List ShapeEntry) → AreMarks layout.now.bins.now entries layout.now.marks.now
        → IsTrue result ↔ IsTouchedElsewhere layout.now.tech.now.connects layout.now.bins.now entries moved.now
        instance.now place }
{
    let other = shape_at(layout, place);
    stands_elsewhere(layout, place, instance)
        && touches_one(layout.tech.connects.as_slice(), moved, other)
}

/// Whether one of the shapes touches one of the flat shapes at these places that stands elsewhere than in the instance.
fn touches_one_of(
    layout: &MarkedLayout,
    moved: &[Shape],
    instance: &[ReferenceStep],
    places: &[usize],
) -> bool
    requires within { (place : ℕ) → Contains places.now place → place < length layout.now.bins.now }
    requires marks { length layout.now.marks.now ≡ length layout.now.bins.now }
    ensures { (entries : List ShapeEntry) → AreMarks layout.now.bins.now entries layout.now.marks.now
        → IsTrue result ↔ SomeHas (IsTouchedElsewhere layout.now.tech.now.connects layout.now.bins.now entries moved.now
        instance.now) places.now }
{
    for place in places {
        if touches_at(layout, moved, instance, *place) {
            return true;
        }
    }
    false
}

/// Whether one of the shapes, of which this is the first, touches one that stands elsewhere than in the instance. The
/// bins are asked once a layer for all of them. `places` is a list to use again.
fn touches_elsewhere(
    layout: &MarkedLayout,
    first: Shape,
    moved: &[Shape],
    instance: &[ReferenceStep],
    places: &mut Vec<usize>,
) -> Result<bool, Memory>
    requires few { length layout.now.tech.now.layers ≤ 64 }
    requires marks { length layout.now.marks.now ≡ length layout.now.bins.now }
    ensures { IfOk result (λ found. (entries : List ShapeEntry) → AreLayoutEntries layout.now entries
        → IsTrue found ↔ SomeHas (TouchesElsewhere layout.now.tech.now.connects entries instance.now) moved.now) }
{
    let hull = hull_of(first, moved);
    places.clear();
    add_near(
        layout.bins,
        layout.tech.layers.as_slice().len(),
        hull,
        places,
    )?;
    Ok(touches_one_of(layout, moved, instance, places.as_slice()))
}

/// The same of any shapes, also of none.
fn some_touch_elsewhere(
    layout: &MarkedLayout,
    moved: &[Shape],
    instance: &[ReferenceStep],
    places: &mut Vec<usize>,
) -> Result<bool, Memory>
    requires few { length layout.now.tech.now.layers ≤ 64 }
    requires marks { length layout.now.marks.now ≡ length layout.now.bins.now }
    ensures { IfOk result (λ found. (entries : List ShapeEntry) → AreLayoutEntries layout.now entries
        → IsTrue found ↔ SomeHas (TouchesElsewhere layout.now.tech.now.connects entries instance.now) moved.now) }
{
    match moved.split_first() {
        Some((first, _)) => touches_elsewhere(layout, *first, moved, instance, places),
        None => Ok(false),
    }
}

/// Whether a loose shape of a leaf cell, moved to where an instance of the cell stands, touches a shape outside of that
/// instance. `places` and `moved` are lists to use again.
fn has_contact_of(
    layout: &MarkedLayout,
    loose: &[Shape],
    stand: &Stand,
    places: &mut Vec<usize>,
    moved: &mut Vec<Shape>,
) -> Result<bool, Memory>
    requires few { length layout.now.tech.now.layers ≤ 64 }
    requires marks { length layout.now.marks.now ≡ length layout.now.bins.now }
    requires near { IsNearPoint stand.now.place.at }
    requires loose { AreReachable loose.now }
    ensures { IfOk result (λ found. (entries : List ShapeEntry) → AreLayoutEntries layout.now entries
        → IsTrue found ↔ SomeHas (IsContactOf layout.now.tech.now.connects entries stand.now) loose.now) }
{
    moved.clear();
    add_moved(stand.place, loose, moved)?;
    some_touch_elsewhere(layout, moved.as_slice(), stand.steps, places)
}

/// Whether the stand is that of a leaf cell, and not one inside of it.
fn is_instance(stand: &Stand) -> bool
    ensures { IsTrue result ↔ (option_copied stand.now.instance ≡ Some stand.now.steps.now) }
{
    match stand.instance {
        Some(instance) => are_same(instance, stand.steps),
        None => false,
    }
}

/// Whether it is the leaf cell that stands there, and a loose shape of it touches a shape elsewhere.
fn has_contact_with(
    layout: &MarkedLayout,
    leaf: &LooseLeaf,
    stand: &Stand,
    places: &mut Vec<usize>,
    moved: &mut Vec<Shape>,
) -> Result<bool, Memory>
    requires few { length layout.now.tech.now.layers ≤ 64 }
    requires tree { AreReachedCells layout.now.tree.now }
    requires marks { length layout.now.marks.now ≡ length layout.now.bins.now }
    requires near { IsNearPoint stand.now.place.at }
    requires cell { stand.now.cell < length layout.now.tree.now.cells.now }
    requires loose { AreReachable leaf.now.shapes }
    ensures { IfOk result (λ found. (entries : List ShapeEntry) → AreLayoutEntries layout.now entries
        → IsTrue found ↔ IsContactWith layout.now.tech.now.connects layout.now.tree.now entries stand.now leaf.now) }
{
    if !is_cell_named(layout.tree, stand.cell, &leaf.cell) {
        return Ok(false);
    }
    has_contact_of(layout, leaf.shapes.as_slice(), stand, places, moved)
}

/// Whether a loose shape of the leaf cell that stands there touches a shape elsewhere.
fn has_contact_at(
    layout: &MarkedLayout,
    stand: &Stand,
    places: &mut Vec<usize>,
    moved: &mut Vec<Shape>,
) -> Result<bool, Memory>
    requires few { length layout.now.tech.now.layers ≤ 64 }
    requires tree { AreReachedCells layout.now.tree.now }
    requires marks { length layout.now.marks.now ≡ length layout.now.bins.now }
    requires near { IsNearPoint stand.now.place.at }
    requires cell { stand.now.cell < length layout.now.tree.now.cells.now }
    requires loose { AreNearLeaves layout.now.tree.now.leaves.now }
    ensures { IfOk result (λ found. (entries : List ShapeEntry) → AreLayoutEntries layout.now entries
        → IsTrue found ↔ HasContactAt layout.now.tech.now.connects layout.now.tree.now entries stand.now) }
{
    if !is_instance(stand) {
        return Ok(false);
    }
    for leaf in layout.tree.leaves {
        let found = has_contact_with(layout, leaf, stand, places, moved)?;
        if found {
            return Ok(true);
        }
    }
    Ok(false)
}

/// Whether a loose shape of a leaf cell touches a shape elsewhere, in one of the places where leaf cells stand.
fn has_contact(alloc: Global, layout: &MarkedLayout, stands: &[Stand]) -> Result<bool, Memory>
    requires few { length layout.now.tech.now.layers ≤ 64 }
    requires tree { AreReachedCells layout.now.tree.now }
    requires marks { length layout.now.marks.now ≡ length layout.now.bins.now }
    requires stands { AreStandsIn layout.now.tree.now layout.now.bins.now stands.now }
    requires loose { AreNearLeaves layout.now.tree.now.leaves.now }
    ensures { IfOk result (λ found. (entries : List ShapeEntry) → AreLayoutEntries layout.now entries
        → IsTrue found ↔ SomeHas (HasContactAt layout.now.tech.now.connects layout.now.tree.now entries) stands.now) }
{
    let mut places = Vec::new(alloc);
    let mut moved = Vec::new(alloc);
    for stand in stands {
        let found = has_contact_at(layout, stand, &mut places, &mut moved)?;
        if found {
            return Ok(true);
        }
    }
    Ok(false)
}

/// Whether the leaf cell has loose shapes.
fn has_shapes(leaf: &LooseLeaf) -> bool
    ensures { IsTrue result ↔ (leaf.now.shapes ≡ [] → ⊥) }
{
    !leaf.shapes.is_empty()
}

/// Whether a leaf cell has loose shapes.
fn has_loose(leaves: &[LooseLeaf]) -> bool
    ensures { IsTrue result ↔ SomeHas (λ leaf. leaf.shapes ≡ [] → ⊥) leaves.now }
{
    for leaf in leaves {
        if has_shapes(leaf) {
            return true;
        }
    }
    false
}

/// The cells that the top reaches, from the bottom up.
fn all_cells_below(alloc: Global, lib: &Library, top: &Name) -> Result<Vec<Cell>, Memory>
    requires writable { IsWritable lib.now }
    requires sound { IsSound lib.now.structs top.now }
    ensures { IfOk result (λ cells. AreCells lib.now.structs top.now cells.items) }
{
    match cells_below(alloc, lib.structs.as_slice(), top) {
        Ok(cells) => Ok(cells),
        Err(fault) => match fault {
            ChainFault::Memory => Err(Memory),
            _ => unreachable!(),
        },
    }
}

/// Whether a loose shape of a leaf cell, as it lies at an instance of the cell below the top, touches or is a shape
/// that stands outside of this instance. `bins` has the flat shapes of the top.
pub fn has_loose_contact<'b>(
    alloc: Global,
    bump: &'b Bump,
    tech: &Tech,
    lib: &Library,
    top: &Name,
    bins: &Bins<'b>,
    leaves: &[LooseLeaf],
) -> Result<bool, Memory>
    requires writable { IsWritable lib.now }
    requires few { length tech.now.layers ≤ 64 }
    requires flat { AreFlatShapes tech.now.layers lib.now.structs top.now bins.now }
    requires loose { AreNearLeaves leaves.now }
    ensures { IfOk result (λ found. IsTrue found ↔ HasLooseContact tech.now lib.now.structs top.now leaves.now) }
{
    if !has_loose(leaves) {
        return Ok(false);
    }
    let layers = tech.layers.as_slice();
    let structs = lib.structs.as_slice();
    let cells = all_cells_below(alloc, lib, top)?;
    let summaries = summaries_of(alloc, layers, leaves, structs, &cells)?;
    let tree = ReachedCells {
        layers,
        leaves,
        top,
        structs,
        cells: &cells,
        summaries: &summaries,
    };
    let stands = stands_of(alloc, bump, &tree)?;
    let marks = marks_of(alloc, &tree, bins.shapes(), &stands)?;
    let layout = MarkedLayout {
        tech,
        tree: &tree,
        bins,
        marks: &marks,
    };
    has_contact(alloc, &layout, &stands)
}
