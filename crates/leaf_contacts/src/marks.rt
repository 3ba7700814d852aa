ghost use Rattle.std.specs.Prelude.{◌≡◌, ◌↔◌, ◌≢◌, ◌⊎◌, ◌++◌, ◌∷◌, [], List, Contains, IfOk, IsTrue, Some, length};
ghost use Rattle.std.specs.Prelude.{slice_get, true, false};
ghost use Rattle.std.specs.List.Sorted.{IsStrictlySortedBy};
ghost use Rattle.std.specs.Option.{option_copied};
ghost use Rattle.or_geom.specs.declared.shape.Shape.{Shape};
ghost use Rattle.or_geom.specs.Place.{IsNearPoint};
ghost use Rattle.or_geom.specs.ShapeOrder.{shape_order};
ghost use Rattle.leaf_contacts.specs.Marks.{AreAllEntries, AreEntriesOf, AreMarks, ShapeEntry, HasShapesOf};
ghost use Rattle.leaf_contacts.specs.Marks.{AreStandsIn, IsListedElsewhere, IsMark, IsMarkOrNone, shape_entry};
ghost use Rattle.or_geom.specs.Reachable.{AreReachable};
ghost use Rattle.leaf_contacts.specs.Stands.{AreReachedCells};

use crate::cells::{ReachedCells, summary_at};
use crate::places::{FoundPlaces, place_of};
use crate::stand::{ReferenceStep, Stand, are_same};
use or_geom::{Memory, Shape};
use std::alloc::Global;

/// In which instances a shape of the flat layout stands: in this one or, where that is none, in no instance; and
/// perhaps elsewhere too.
#[derive(Clone, Copy)]
pub struct Mark<'b> {
    pub instance: Option<&'b [ReferenceStep]>,
    pub elsewhere: bool,
}

/// Whether the instances are the same, or neither is one.
fn is_one(a: Option<&[ReferenceStep]>, b: Option<&[ReferenceStep]>) -> bool
    ensures { IsTrue result ↔ (option_copied a.entry ≡ option_copied b.entry) }
{
    match (a, b) {
        (Some(a), Some(b)) => are_same(a, b),
        (None, None) => true,
        _ => false,
    }
}

/// Whether the mark tells of something else than this instance or, where there is none, of an instance.
fn differs(mark: &Mark, instance: Option<&[ReferenceStep]>) -> bool
    ensures other { result ≡ true → (mark.now.elsewhere ≡ true)
        ⊎ (option_copied instance.entry ≢ option_copied mark.now.instance) }
    ensures same { result ≡ false → (mark.now.elsewhere ≡ false)
        × (option_copied instance.entry ≡ option_copied mark.now.instance) }
{
    mark.elsewhere || !is_one(instance, mark.instance)
}

/// Whether the shape that is marked so stands elsewhere than in the instance.
pub fn is_elsewhere(mark: &Mark, instance: &[ReferenceStep]) -> bool
    ensures { (entries : List ShapeEntry) (shape : Shape) → IsMark entries shape mark.now
        → IsTrue result ↔ IsListedElsewhere entries shape (Some instance.now) }
{
    differs(mark, Some(instance))
}

/// The mark of a shape that stands in this instance too.
fn mark_with<'b>(mark: Option<Mark<'b>>, instance: Option<&'b [ReferenceStep]>) -> Mark<'b>
    ensures { (entries : List ShapeEntry) (shape : Shape) → IsMarkOrNone entries shape mark.entry
        → IsMark (entries ++ shape_entry shape (option_copied instance.entry) ∷ []) shape result }
{
    match mark {
        None => Mark {
            instance,
            elsewhere: false,
        },
        Some(mark) => Mark {
            instance: mark.instance,
            elsewhere: differs(&mark, instance),
        },
    }
}

/// Marks the shape of the flat layout that stands at a place as one that stands in the instance.
fn mark_shape<'b>(
    _shapes: &[Shape],
    _shape: Shape,
    place: usize,
    instance: Option<&'b [ReferenceStep]>,
    marks: &mut [Option<Mark<'b>>],
)
    requires rises { IsStrictlySortedBy shape_order _shapes.now }
    requires there { slice_get _shapes.now place ≡ Some _shape }
    requires sized { length marks.old ≡ length _shapes.now }
    ensures { (entries : List ShapeEntry) → AreMarks _shapes.now entries marks.old
        → AreMarks _shapes.now (entries ++ shape_entry _shape (option_copied instance.entry) ∷ []) marks.new }
{
    marks[place] = Some(mark_with(marks[place], instance));
}

/// Marks the shapes that a cell draws itself where it stands.
fn mark_stand<'b>(
    own: &[Shape],
    shapes: &[Shape],
    stand: &Stand<'b>,
    found: &mut FoundPlaces,
    marks: &mut [Option<Mark<'b>>],
)
    requires rises { IsStrictlySortedBy shape_order shapes.now }
    requires near { IsNearPoint stand.now.place.at }
    requires own { AreReachable own.now }
    requires listed { HasShapesOf stand.now own.now shapes.now }
    requires sized { length marks.old ≡ length shapes.now }
    ensures { (added : List ShapeEntry) × AreEntriesOf stand.now own.now added
        × ((entries : List ShapeEntry) → AreMarks shapes.now entries marks.old
        → AreMarks shapes.now (entries ++ added) marks.new) }
{
    for number in 0..own.len() {
        let shape = own[number];
        let moved = Shape {
            layer: shape.layer,
            rect: stand.place.apply(shape.rect),
        };
        let place = place_of(shapes, moved, found.next_place(number));
        found.keep_place(number, place);
        mark_shape(shapes, moved, place, stand.instance, marks);
    }
}

/// The marks of the flat shapes.
pub fn marks_of<'b>(
    alloc: Global,
    tree: &ReachedCells,
    shapes: &[Shape],
    stands: &[Stand<'b>],
) -> Result<Vec<Option<Mark<'b>>>, Memory>
    requires tree { AreReachedCells tree.now }
    requires rises { IsStrictlySortedBy shape_order shapes.now }
    requires stands { AreStandsIn tree.now shapes.now stands.now }
    ensures { IfOk result (λ marks. (entries : List ShapeEntry) × AreAllEntries tree.now stands.now entries
        × AreMarks shapes.now entries marks.items) }
{
    let mut marks = vec![in alloc; None; shapes.len()]?;
    let mut found = FoundPlaces::new(alloc)?;
    for stand in stands {
        let summary = summary_at(tree.summaries, stand.cell);
        mark_stand(&summary.shapes, shapes, stand, &mut found, &mut marks);
    }
    Ok(marks)
}
