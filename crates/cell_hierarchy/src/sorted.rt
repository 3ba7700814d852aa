ghost use Rattle.std.specs.Prelude.{◌≡◌, ◌↔◌, IsTrue, Contains, map, IfOk, IfErr};
ghost use Rattle.std.specs.List.Sorted.{IsPermutation, IsSorted, IsStrictlySortedBy};
ghost use Rattle.or_geom.specs.ShapeOrder.{shape_order};
ghost use Rattle.or_geom.specs.declared.shape.Shape.{Shape};
ghost use Rattle.element_drawing.specs.LabelOrder.{label_order};
ghost use Rattle.cell_hierarchy.specs.LabelLaws.{flat_label_order};
ghost use Rattle.element_drawing.specs.PlainLabel.{PlainLabel};
ghost use Rattle.cell_hierarchy.specs.Plain.{plain_label};
ghost use Rattle.cell_hierarchy.specs.Settled.{IsFlatOf, IsFarFault};

use crate::far::far_point;
use crate::fault::FlattenFault;
use crate::flat::{Flat, Label};
use crate::gathered::Gathered;
use crate::sorter::Sorter;
use bumpalo::Bump;
use bumpalo::collections::into_bump_slice;
use or_geom::Shape;

/// Sorts shapes in an arena.
fn sort_shapes<S: Sorter>(sorter: &S, shapes: &mut Vec<Shape, &Bump>)
    requires { S.ready sorter.now }
    ensures permutation { IsPermutation shapes.old.items shapes.new.items }
    ensures sorted { IsSorted shape_order shapes.new.items }
{
    sorter.sort_shapes(shapes.as_mut_slice());
}

/// Sorts labels in an arena.
fn sort_labels<'b, S: Sorter>(sorter: &S, labels: &mut Vec<Label<'b>, &'b Bump>)
    requires { S.ready sorter.now }
    ensures permutation { IsPermutation labels.old.items labels.new.items }
    ensures sorted { IsSorted flat_label_order labels.new.items }
{
    sorter.sort_labels(labels.as_mut_slice());
}

/// Drops repetitions from a sorted list in an arena. What compares as equal has to be equal for nothing to be lost,
/// which the premise of `keeps` says of the type.
fn drop_repetitions<T: Ord + Drop>(list: &mut Vec<T, &Bump>)
    requires { IsSorted T.cmp list.old.items }
    ensures rises { IsStrictlySortedBy T.cmp list.new.items }
    ensures keeps { ((x y : T) → IsTrue (T.eq x y) → x ≡ y) → (x : T) → Contains list.old.items x
        → Contains list.new.items x }
    ensures adds_none { (x : T) → Contains list.new.items x → Contains list.old.items x }
{
    list.dedup();
}

/// Sorts the shapes and drops repetitions.
fn sort_distinct_shapes<S: Sorter>(sorter: &S, shapes: &mut Vec<Shape, &Bump>)
    requires { S.ready sorter.now }
    ensures rises { IsStrictlySortedBy shape_order shapes.new.items }
    ensures keeps { (s : Shape) → Contains shapes.old.items s → Contains shapes.new.items s }
    ensures adds_none { (s : Shape) → Contains shapes.new.items s → Contains shapes.old.items s }
{
    sort_shapes(sorter, shapes);
    drop_repetitions(shapes);
}

/// Sorts the labels and drops repetitions. Labels with the same texts are one, wherever the texts lie.
fn sort_distinct_labels<'b, S: Sorter>(sorter: &S, labels: &mut Vec<Label<'b>, &'b Bump>)
    requires { S.ready sorter.now }
    ensures rises { IsStrictlySortedBy label_order (map plain_label labels.new.items) }
    ensures same { (label : PlainLabel) → Contains (map plain_label labels.new.items) label
        ↔ Contains (map plain_label labels.old.items) label }
{
    sort_labels(sorter, labels);
    labels.dedup();
}

/// The shapes and labels that were gathered, each list sorted in the arena where it lies, and each item once. Refuses
/// if a corner of a shape or a point of a label lies outside 32 bits, and tells the first that does.
pub fn sorted_flat<'b, S: Sorter>(
    sorter: &S,
    gathered: Gathered<'b>,
) -> Result<Flat<'b>, FlattenFault>
    requires { S.ready sorter.now }
    ensures flat { IfOk result (IsFlatOf gathered.entry) }
    ensures far { IfErr result (IsFarFault gathered.entry) }
{
    if let Some(p) = far_point(&gathered.shapes, &gathered.points) {
        return Err(FlattenFault::Far { x: p.x, y: p.y });
    }
    let Gathered {
        mut shapes,
        mut labels,
        ..
    } = gathered;
    sort_distinct_shapes(sorter, &mut shapes);
    sort_distinct_labels(sorter, &mut labels);
    Ok(Flat {
        shapes: into_bump_slice(shapes),
        labels: into_bump_slice(labels),
    })
}
