ghost use Rattle.std.specs.Prelude.{◌<◌, length, IfOk, OnOk};
ghost use Rattle.std.specs.List.Sorted.{IsStrictlySortedBy};
ghost use Rattle.or_geom.specs.Gathering.{SomeHas};
ghost use Rattle.or_geom.specs.ShapeOrder.{shape_order};
ghost use Rattle.net_extractor.specs.Marks.{AreMarkedSets, JoinsMarked};
ghost use Rattle.net_extractor.specs.NetRoots.{AreNetRoots};
ghost use Rattle.net_extractor.specs.RunPairs.{IsLayerPairOf, IsListedPair, IsOverPairOf, IsRunPair};
ghost use Rattle.net_extractor.specs.Runs.{AreOfRun};

use crate::contacts::Contact;
use crate::links::{add_cut_to, is_conductor};
use crate::marks::no_marks;
use crate::run::{NearRun, RunShape, take_run};
use crate::sets::{each_alone, flatten};
use crate::walk::{Search, join_contacts};
use or_geom::Memory;
use shape_bins::{Bins, Forest};
use std::alloc::Global;
use tech_rules::Connect;

/// Lists that are used again for each run: its shapes, the layers that its layer connects as a cut, and what is found
/// in a leaf.
#[derive(Drop)]
struct Scratch {
    own: Vec<RunShape>,
    layers: Vec<u16>,
    places: Vec<usize>,
}

/// Joins the run's shapes, where they are on a conductor layer, with those that they touch on it.
fn join_on_layer(
    connections: &[Connect],
    forest: Forest<'_>,
    run: NearRun,
    own: &[RunShape],
    marks: &mut [bool],
    above: &mut [u32],
    places: &mut Vec<usize>,
) -> Result<(), Memory>
    requires sets { AreMarkedSets forest above.old marks.old }
    requires run { AreOfRun forest.shapes.now run own.now }
    ensures { OnOk result (JoinsMarked (IsLayerPairOf connections.now forest.entry.shapes.now own.now) forest.entry
        above.old above.new marks.new) }
{
    if !is_conductor(connections, run.layer) {
        return Ok(());
    }
    let search = Search {
        run,
        own,
        layer: run.layer,
        contact: Contact::Joined,
    };
    join_contacts(forest, search, marks, above, places)?;
    Ok(())
}

/// Joins the run's shapes with those of the layer that share area with them.
fn join_over_layer(
    forest: Forest<'_>,
    layer: u16,
    run: NearRun,
    own: &[RunShape],
    marks: &mut [bool],
    above: &mut [u32],
    places: &mut Vec<usize>,
) -> Result<(), Memory>
    requires sets { AreMarkedSets forest above.old marks.old }
    requires run { AreOfRun forest.shapes.now run own.now }
    ensures { OnOk result (JoinsMarked (IsOverPairOf forest.entry.shapes.now own.now layer) forest.entry
        above.old above.new marks.new) }
{
    let search = Search {
        run,
        own,
        layer,
        contact: Contact::Overlapping,
    };
    join_contacts(forest, search, marks, above, places)?;
    Ok(())
}

/// Joins the run's shapes with those of the layers that share area with them.
fn join_over_layers(
    forest: Forest<'_>,
    layers: &[u16],
    run: NearRun,
    own: &[RunShape],
    marks: &mut [bool],
    above: &mut [u32],
    places: &mut Vec<usize>,
) -> Result<(), Memory>
    requires sets { AreMarkedSets forest above.old marks.old }
    requires run { AreOfRun forest.shapes.now run own.now }
    ensures { OnOk result (JoinsMarked (λ a b. SomeHas (λ layer. IsOverPairOf forest.entry.shapes.now own.now layer a
        b) layers.now) forest.entry above.old above.new marks.new) }
{
    for layer in layers {
        join_over_layer(forest, *layer, run, own, marks, above, places)?;
    }
    Ok(())
}

/// Joins the run's shapes with those that they touch on their layer, and those that they touch as cuts.
fn join_run(
    connections: &[Connect],
    forest: Forest<'_>,
    run: NearRun,
    marks: &mut [bool],
    above: &mut [u32],
    scratch: &mut Scratch,
) -> Result<(), Memory>
    requires sets { AreMarkedSets forest above.old marks.old }
    requires run { AreOfRun forest.shapes.now run scratch.old.own.items }
    ensures { OnOk result (JoinsMarked (IsRunPair connections.now forest.entry.shapes.now scratch.old.own.items)
        forest.entry above.old above.new marks.new) }
{
    scratch.layers.clear();
    add_cut_to(connections, run.layer, &mut scratch.layers)?;
    join_on_layer(
        connections,
        forest,
        run,
        &scratch.own,
        marks,
        above,
        &mut scratch.places,
    )?;
    join_over_layers(
        forest,
        &scratch.layers,
        run,
        &scratch.own,
        marks,
        above,
        &mut scratch.places,
    )?;
    Ok(())
}

/// Joins the shapes of the run that begins at a position of the forest's order with those that they touch on their
/// layer or as cuts, and answers where the run ends.
fn join_from(
    connections: &[Connect],
    forest: Forest<'_>,
    begin: usize,
    marks: &mut [bool],
    above: &mut [u32],
    scratch: &mut Scratch,
) -> Result<usize, Memory>
    requires begins { begin < length forest.places.now }
    requires sets { AreMarkedSets forest above.old marks.old }
    ensures beyond { IfOk result (λ end. begin < end) }
    ensures joins { IfOk result (λ end. JoinsMarked (IsListedPair connections.now forest.entry.shapes.now
        forest.entry.places.now begin end) forest.entry above.old above.new marks.new) }
{
    if forest.shapes.len() <= forest.places[begin] as usize {
        return Ok(begin + 1);
    }
    let run = take_run(forest.shapes, forest.places, begin, &mut scratch.own)?;
    join_run(connections, forest, run, marks, above, scratch)?;
    Ok(run.end)
}

/// Joins each shape with those that it touches on its layer or as a cut.
fn join_touching(
    alloc: Global,
    connections: &[Connect],
    forest: Forest<'_>,
    marks: &mut [bool],
    above: &mut [u32],
) -> Result<(), Memory>
    requires sets { AreMarkedSets forest above.old marks.old }
    ensures { OnOk result (JoinsMarked (IsListedPair connections.now forest.entry.shapes.now forest.entry.places.now 0
        (length forest.entry.places.now)) forest.entry above.old above.new marks.new) }
{
    let mut scratch = Scratch {
        own: Vec::new(alloc),
        layers: Vec::new(alloc),
        places: Vec::new(alloc),
    };
    let mut at = 0;
    while at < forest.places.len() {
        at = join_from(connections, forest, at, marks, above, &mut scratch)?;
    }
    Ok(())
}

/// For each shape the place of one that stands for its net: two shapes have one exactly where they are on one net.
///
/// The shapes of each net are joined, pair by pair of those that touch, in disjoint sets. Near shapes of a layer are
/// taken together, so that one walk over the trees answers for all of them.
pub fn net_roots(alloc: Global, connections: &[Connect], bins: &Bins) -> Result<Vec<u32>, Memory>
    requires rises { IsStrictlySortedBy shape_order bins.now }
    ensures { IfOk result (λ roots. AreNetRoots connections.now bins.now roots.items) }
{
    let forest = bins.forest();
    let mut above = each_alone(alloc, forest.places, forest.shapes.len())?;
    let mut marks = no_marks(alloc, forest)?;
    join_touching(alloc, connections, forest, &mut marks, &mut above)?;
    flatten(&mut above);
    Ok(above)
}
