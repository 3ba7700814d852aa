ghost use Rattle.std.specs.Prelude.{◌≡◌, ◌<◌, ◌^◌, ℕ, List, length, IsTrue, IfOk, IfSome};
ghost use Rattle.shape_bins.specs.Nodes.{IsNodeOver};
ghost use Rattle.net_extractor.specs.Contacts.{ArePlacesBelow};
ghost use Rattle.net_extractor.specs.Marks.{AreMarkedSets, AreNodeMarks, AreAllTogether, AreRunWith, AreWith};
ghost use Rattle.net_extractor.specs.Marks.{IsFirstWith, IsInnerOneSet, IsInnerWith, IsNodeOneSet, IsRunWithFirst, IsRunWithNode};
ghost use Rattle.net_extractor.specs.Sets.{AreSameSets, IsFalling};

use crate::run::RunShape;
use crate::sets::root;
use or_geom::Memory;
use shape_bins::{Forest, Node};
use std::alloc::Global;

/// No node has a mark yet.
pub fn no_marks(alloc: Global, forest: Forest<'_>) -> Result<Vec<bool>, Memory>
    ensures { IfOk result (λ marks. (above : List ℕ) → AreNodeMarks forest.entry above marks.items) }
{
    let marks = vec![in alloc; false; forest.nodes.len()]?;
    Ok(marks)
}

/// The root of the first of the node's shapes, if it has any.
#[inline(always)]
fn first_root(forest: Forest<'_>, node: Node, above: &mut [u32]) -> Option<u32>
    requires over { IsNodeOver forest.shapes.now forest.places.now node }
    requires sized { length above.old ≡ length forest.shapes.now }
    requires falls { IsFalling above.old }
    ensures alike { AreSameSets above.old above.new }
    ensures first { IfSome result (IsFirstWith forest.entry node above.new) }
{
    if node.end <= node.first {
        return None;
    }
    Some(root(above, forest.places[node.first as usize] as usize))
}

/// Whether all shapes of the run have the root.
fn is_run_with(run: &[RunShape], top: u32, above: &mut [u32]) -> bool
    requires run { ArePlacesBelow (length above.old) run.now }
    requires falls { IsFalling above.old }
    ensures alike { AreSameSets above.old above.new }
    ensures with_top { IsTrue result → AreRunWith run.now top above.new }
{
    for own in run {
        if root(above, own.place) != top {
            return false;
        }
    }
    true
}

/// Whether all shapes of the leaf have the root.
fn is_leaf_with(forest: Forest<'_>, leaf: Node, top: u32, above: &mut [u32]) -> bool
    requires over { IsNodeOver forest.shapes.now forest.places.now leaf }
    requires sized { length above.old ≡ length forest.shapes.now }
    requires falls { IsFalling above.old }
    ensures alike { AreSameSets above.old above.new }
    ensures with_top { IsTrue result → AreWith forest.entry.places.now top above.new leaf.first leaf.end }
{
    for at in leaf.first as usize..leaf.end as usize {
        if root(above, forest.places[at] as usize) != top {
            return false;
        }
    }
    true
}

/// Whether all shapes of the leaf are of one set.
pub fn is_leaf_one_set(forest: Forest<'_>, leaf: Node, above: &mut [u32]) -> bool
    requires over { IsNodeOver forest.shapes.now forest.places.now leaf }
    requires sized { length above.old ≡ length forest.shapes.now }
    requires falls { IsFalling above.old }
    ensures alike { AreSameSets above.old above.new }
    ensures one { IsTrue result → AreAllTogether forest.entry.places.now above.new leaf.first leaf.end }
{
    match first_root(forest, leaf, above) {
        Some(top) => is_leaf_with(forest, leaf, top, above),
        None => false,
    }
}

/// Whether the children of this node, which is no leaf, are marked and the first shape of each has the root.
fn are_children_with(
    forest: Forest<'_>,
    at: usize,
    top: u32,
    marks: &[bool],
    above: &mut [u32],
) -> bool
    requires sets { AreMarkedSets forest above.old marks.now }
    requires inside { at < length forest.nodes.now }
    requires few { length forest.nodes.now < 2 ^ 64 }
    ensures alike { AreSameSets above.old above.new }
    ensures with_top { IsTrue result → IsInnerWith forest.entry top above.new at }
{
    let end = at + forest.nodes[at].size;
    let mut next = at + 1;
    while next < end {
        if !marks[next] {
            return false;
        }
        let node = forest.nodes[next];
        let Some(root) = first_root(forest, node, above) else {
            return false;
        };
        if root != top {
            return false;
        }
        next += node.size;
    }
    true
}

/// Whether the children of this node, which is no leaf, are marked and have one root. Then all shapes below it are of
/// one set.
fn is_inner_one_set(forest: Forest<'_>, at: usize, marks: &[bool], above: &mut [u32]) -> bool
    requires sets { AreMarkedSets forest above.old marks.now }
    requires inside { at < length forest.nodes.now }
    requires few { length forest.nodes.now < 2 ^ 64 }
    ensures alike { AreSameSets above.old above.new }
    ensures one { IsTrue result → IsInnerOneSet forest.entry above.new at }
{
    match first_root(forest, forest.nodes[at], above) {
        Some(top) => are_children_with(forest, at, top, marks, above),
        None => false,
    }
}

/// Whether the node has a mark, or gets one: where its children have marks and one root. Its first child stands right
/// behind it, and as a rule has no mark.
fn is_marked(forest: Forest<'_>, at: usize, marks: &mut [bool], above: &mut [u32]) -> bool
    requires sets { AreMarkedSets forest above.old marks.old }
    requires inside { at < length forest.nodes.now }
    requires few { length forest.nodes.now < 2 ^ 64 }
    ensures alike { AreSameSets above.old above.new }
    ensures marks { AreNodeMarks forest.entry above.new marks.new }
    ensures one { IsTrue result → IsNodeOneSet forest.entry above.new at }
{
    if marks[at] {
        return true;
    }
    if forest.nodes[at].size == 1 || !marks[at + 1] {
        return false;
    }
    let one = is_inner_one_set(forest, at, marks, above);
    marks[at] = one;
    one
}

/// Whether all shapes of the run have the root of the node's first shape.
fn is_run_with_first(forest: Forest<'_>, node: Node, run: &[RunShape], above: &mut [u32]) -> bool
    requires over { IsNodeOver forest.shapes.now forest.places.now node }
    requires sized { length above.old ≡ length forest.shapes.now }
    requires run { ArePlacesBelow (length above.old) run.now }
    requires falls { IsFalling above.old }
    ensures alike { AreSameSets above.old above.new }
    ensures first { IsTrue result → IsRunWithFirst forest.entry node run.now above.new }
{
    match first_root(forest, node, above) {
        Some(top) => is_run_with(run, top, above),
        None => false,
    }
}

/// Whether all shapes of the run and all at and below the node are known to be of one set. Then none of them has to be
/// looked at.
pub fn is_one_set_with(
    forest: Forest<'_>,
    at: usize,
    run: &[RunShape],
    marks: &mut [bool],
    above: &mut [u32],
) -> bool
    requires sets { AreMarkedSets forest above.old marks.old }
    requires inside { at < length forest.nodes.now }
    requires few { length forest.nodes.now < 2 ^ 64 }
    requires run { ArePlacesBelow (length above.old) run.now }
    ensures alike { AreSameSets above.old above.new }
    ensures marks { AreNodeMarks forest.entry above.new marks.new }
    ensures one { IsTrue result → IsRunWithNode forest.entry run.now above.new at }
{
    is_marked(forest, at, marks, above) && is_run_with_first(forest, forest.nodes[at], run, above)
}
