ghost use Rattle.std.specs.Prelude.{◌≡◌, ◌<◌, ◌^◌, length, IfOk, OnOk};
ghost use Rattle.shape_bins.specs.Nodes.{IsNodeOver};
ghost use Rattle.net_extractor.specs.Marks.{AreMarkedSets, IsMarkedStep, IsSearched, JoinsBetween, JoinsMarked};
ghost use Rattle.net_extractor.specs.Runs.{AreOfRun};
ghost use Rattle.net_extractor.specs.Sets.{IsFalling};

use crate::contacts::{Contact, join_places};
use crate::marks::{is_leaf_one_set, is_one_set_with};
use crate::run::{NearRun, RunShape};
use or_geom::Memory;
use shape_bins::{Forest, Node, Query, add_of_leaf, is_wanted, nodes_of};

/// What the shapes of a run are joined with: the shapes of the layer that are in contact with them.
#[derive(Clone, Copy)]
pub struct Search<'r> {
    pub run: NearRun,
    pub own: &'r [RunShape],
    pub layer: u16,
    pub contact: Contact,
}

/// Joins the run's shapes with those of the leaf that are in contact with them.
fn join_leaf(
    forest: Forest<'_>,
    leaf: Node,
    search: Search<'_>,
    above: &mut [u32],
    places: &mut Vec<usize>,
) -> Result<(), Memory>
    requires over { IsNodeOver forest.shapes.now forest.places.now leaf }
    requires on { leaf.hull.layer ≡ search.layer }
    requires sized { length above.old ≡ length forest.shapes.now }
    requires run { AreOfRun forest.shapes.now search.run search.own.now }
    requires falls { IsFalling above.old }
    ensures { OnOk result (JoinsBetween forest.entry search.entry leaf.first leaf.end above.old above.new) }
{
    places.clear();
    add_of_leaf(forest, leaf, Query::Meets(search.run.hull), places)?;
    join_places(search.contact, forest.shapes, search.own, places, above);
    Ok(())
}

/// Looks at a node, and if it is a leaf joins the run's shapes with those of its shapes that are in contact with them.
/// Answers the next node to look at: that behind all below this one, where no shape below it can be in contact or all
/// are of one set with the run's shapes.
fn step(
    forest: Forest<'_>,
    at: usize,
    search: Search<'_>,
    marks: &mut [bool],
    above: &mut [u32],
    places: &mut Vec<usize>,
) -> Result<usize, Memory>
    requires sets { AreMarkedSets forest above.old marks.old }
    requires run { AreOfRun forest.shapes.now search.run search.own.now }
    requires inside { at < length forest.nodes.now }
    requires few { length forest.nodes.now < 2 ^ 64 }
    ensures { IfOk result (λ next. IsMarkedStep forest.entry search.entry at next above.old above.new marks.new) }
{
    let node = forest.nodes[at];
    let behind = at + node.size;
    if !is_wanted(node, search.layer, Query::Meets(search.run.hull)) {
        return Ok(behind);
    }
    if is_one_set_with(forest, at, search.own, marks, above) {
        return Ok(behind);
    }
    if node.size == 1 {
        join_leaf(forest, node, search, above, places)?;
        marks[at] = is_leaf_one_set(forest, node, above);
        return Ok(behind);
    }
    Ok(at + 1)
}

/// Joins the run's shapes with all shapes of the layer that are in contact with them. `places` is used for what is
/// found in a leaf.
pub fn join_contacts(
    forest: Forest<'_>,
    search: Search<'_>,
    marks: &mut [bool],
    above: &mut [u32],
    places: &mut Vec<usize>,
) -> Result<(), Memory>
    requires sets { AreMarkedSets forest above.old marks.old }
    requires run { AreOfRun forest.shapes.now search.run search.own.now }
    ensures { OnOk result (JoinsMarked (IsSearched forest.entry search.entry) forest.entry above.old above.new
        marks.new) }
{
    let range = nodes_of(forest, search.layer);
    let mut at = range.first;
    while at < range.end {
        at = step(forest, at, search, marks, above, places)?;
    }
    Ok(())
}
