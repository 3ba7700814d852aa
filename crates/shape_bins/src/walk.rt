ghost use Rattle.std.specs.Prelude.{◌≡◌, ◌⊎◌, ◌↔◌, ℕ, Some, IsTrue, IfSome, MatchOption, OnOk};
ghost use Rattle.or_geom.specs.Adds.{Adds};
ghost use Rattle.or_geom.specs.Covered.{HasCellInSome};
ghost use Rattle.or_geom.specs.Row.{IsFound};
ghost use Rattle.shape_bins.specs.Forest.{IsForest};
ghost use Rattle.shape_bins.specs.Hits.{IsHit, IsHitOf, IsHitBelow, IsHitBelowFrom, NoHitFrom, IsFirstHit};
ghost use Rattle.shape_bins.specs.Layers.{rects_on};
ghost use Rattle.shape_bins.specs.Least.{IsAtMost, IsLeastWith, IsLesser};
ghost use Rattle.shape_bins.specs.Nodes.{IsNodeNear, IsNodeOver};

use crate::forest::{Forest, IndexedShape, nodes_of, placed_at};
use crate::node::Node;
use crate::query::{Query, fits};
use or_geom::{Memory, Point, Rect};

/// Whether the node is of the layer and its hull is one that is looked for. Then so may be shapes below it.
#[inline(always)]
pub fn is_wanted(node: Node, layer: u16, query: Query) -> bool
    ensures { IsTrue result ↔ IsNodeNear layer query node }
{
    node.hull.layer == layer && fits(query, node.hull.rect)
}

/// Adds the places of the leaf's shapes that are looked for.
pub fn add_of_leaf(
    forest: Forest<'_>,
    leaf: Node,
    query: Query,
    out: &mut Vec<usize>,
) -> Result<(), Memory>
    requires { IsNodeOver forest.shapes.now forest.places.now leaf }
    ensures { OnOk result (Adds out.old.items out.new.items (IsHitBelow forest.entry leaf query)) }
{
    for at in leaf.first as usize..leaf.end as usize {
        let placed = placed_at(forest, leaf, at);
        if fits(query, placed.shape.rect) {
            out.push(placed.place)?;
        }
    }
    Ok(())
}

/// Adds the places of all shapes of the layer that are looked for.
pub fn add_near(
    forest: Forest<'_>,
    layer: u16,
    query: Query,
    out: &mut Vec<usize>,
) -> Result<(), Memory>
    requires { IsForest forest }
    ensures { OnOk result (Adds out.old.items out.new.items (IsHit forest.entry.shapes.now layer query)) }
{
    let range = nodes_of(forest, layer);
    let mut at = range.first;
    while at < range.end {
        let node = forest.nodes[at];
        if !is_wanted(node, layer, query) {
            at += node.size;
            continue;
        }
        if node.size == 1 {
            add_of_leaf(forest, node, query, out)?;
        }
        at += 1;
    }
    Ok(())
}

/// The lesser of a place and one found before.
fn lesser(found: Option<usize>, place: usize) -> usize
    ensures { IsLesser found place result }
{
    if let Some(other) = found {
        if other < place {
            return other;
        }
    }
    place
}

/// The least of a place that was found before and those of the leaf's shapes, at least `from`, that are looked for.
fn least_of_leaf(
    forest: Forest<'_>,
    leaf: Node,
    query: Query,
    from: usize,
    before: Option<usize>,
) -> Option<usize>
    requires { IsNodeOver forest.shapes.now forest.places.now leaf }
    ensures { IsLeastWith before (IsHitBelowFrom forest.entry leaf query from) result }
{
    let mut found = before;
    for at in leaf.first as usize..leaf.end as usize {
        let placed = placed_at(forest, leaf, at);
        if placed.place < from {
            continue;
        }
        if fits(query, placed.shape.rect) {
            found = Some(lesser(found, placed.place));
        }
    }
    found
}

/// Whether a place was found that is no greater than this one.
#[inline(always)]
fn is_at_most(found: Option<usize>, place: u32) -> bool
    ensures { IsTrue result ↔ IsAtMost found place }
{
    match found {
        Some(other) => other <= place as usize,
        None => false,
    }
}

/// The least place, at least `from`, of a shape of the layer that is looked for. Passes over a node if no place of its
/// shapes is less than the one found so far: so shapes that lie on one another aren't all looked at.
pub fn least_near(forest: Forest<'_>, layer: u16, query: Query, from: usize) -> Option<usize>
    requires { IsForest forest }
    ensures { MatchOption result (NoHitFrom forest.entry.shapes.now layer query from)
        (IsFirstHit forest.entry.shapes.now layer query from) }
{
    let mut found = None;
    let range = nodes_of(forest, layer);
    let mut at = range.first;
    while at < range.end {
        let node = forest.nodes[at];
        if is_at_most(found, node.least) || !is_wanted(node, layer, query) {
            at += node.size;
            continue;
        }
        if node.size == 1 {
            found = least_of_leaf(forest, node, query, from, found);
        }
        at += 1;
    }
    found
}

/// The place of one of the leaf's shapes that are looked for.
fn some_of_leaf(forest: Forest<'_>, leaf: Node, query: Query) -> Option<usize>
    requires { IsNodeOver forest.shapes.now forest.places.now leaf }
    ensures { MatchOption result ((place : ℕ) → IsHitBelow forest.entry leaf query place → ⊥)
        (IsHit forest.entry.shapes.now leaf.hull.layer query) }
{
    for at in leaf.first as usize..leaf.end as usize {
        let placed = placed_at(forest, leaf, at);
        if fits(query, placed.shape.rect) {
            return Some(placed.place);
        }
    }
    None
}

/// The place of one of the layer's shapes that are looked for.
pub fn some_near(forest: Forest<'_>, layer: u16, query: Query) -> Option<usize>
    requires { IsForest forest }
    ensures { MatchOption result (NoHitFrom forest.entry.shapes.now layer query 0)
        (IsHit forest.entry.shapes.now layer query) }
{
    let range = nodes_of(forest, layer);
    let mut at = range.first;
    while at < range.end {
        let node = forest.nodes[at];
        if !is_wanted(node, layer, query) {
            at += node.size;
            continue;
        }
        if node.size == 1 {
            if let Some(place) = some_of_leaf(forest, node, query) {
                return Some(place);
            }
        }
        at += 1;
    }
    None
}

/// The area of a rectangle, by which rectangles are compared. A wrong one costs time.
fn area_of(rect: Rect) -> u64 {
    let width = rect.x2.abs_diff(rect.x1);
    width.saturating_mul(rect.y2.abs_diff(rect.y1))
}

/// Whether a rectangle is larger than that of the shape found before.
fn is_larger(rect: Rect, found: Option<IndexedShape>) -> bool {
    let Some(before) = found else {
        return true;
    };
    area_of(before.shape.rect) < area_of(rect)
}

/// The larger one of a shape and one found before.
fn larger(found: Option<IndexedShape>, placed: IndexedShape) -> IndexedShape
    ensures { (result ≡ placed) ⊎ (found ≡ Some result) }
{
    let Some(before) = found else {
        return placed;
    };
    if is_larger(placed.shape.rect, found) {
        return placed;
    }
    before
}

/// The largest of a shape that was found before and the leaf's shapes that are looked for.
fn largest_of_leaf(
    forest: Forest<'_>,
    leaf: Node,
    query: Query,
    before: Option<IndexedShape>,
) -> Option<IndexedShape>
    requires { IsNodeOver forest.shapes.now forest.places.now leaf }
    ensures { IfSome before (IsHitOf forest.entry.shapes.now leaf.hull.layer query) → IfSome result
        (IsHitOf forest.entry.shapes.now leaf.hull.layer query) }
{
    let mut found = before;
    for at in leaf.first as usize..leaf.end as usize {
        let placed = placed_at(forest, leaf, at);
        if !fits(query, placed.shape.rect) {
            continue;
        }
        found = Some(larger(found, placed));
    }
    found
}

/// The place of the largest of the layer's shapes that are looked for. That it is the largest isn't claimed.
pub fn largest_near(forest: Forest<'_>, layer: u16, query: Query) -> Option<usize>
    requires { IsForest forest }
    ensures { IfSome result (IsHit forest.entry.shapes.now layer query) }
{
    let mut found: Option<IndexedShape> = None;
    let range = nodes_of(forest, layer);
    let mut at = range.first;
    while at < range.end {
        let node = forest.nodes[at];
        if !is_wanted(node, layer, query) || !is_larger(node.hull.rect, found) {
            at += node.size;
            continue;
        }
        if node.size == 1 {
            found = largest_of_leaf(forest, node, query, found);
        }
        at += 1;
    }
    Some(found?.place)
}

/// One of the layer's rectangles that hold the unit cell with this lower left corner.
pub fn rect_at(forest: Forest<'_>, layer: u16, cell: Point) -> Option<Rect>
    requires { IsForest forest }
    ensures { MatchOption result (HasCellInSome (rects_on layer forest.entry.shapes.now) cell.x cell.y
        → ⊥) (IsFound (rects_on layer forest.entry.shapes.now) cell) }
{
    match some_near(forest, layer, Query::Holds(cell)) {
        Some(place) => Some(forest.shapes[place].rect),
        None => None,
    }
}
