ghost use Rattle.std.specs.Prelude.{◌≡◌, ◌≤◌, ◌^◌, length, map, IfOk};
ghost use Rattle.std.specs.List.Sorted.{IsStrictlySortedBy};
ghost use Rattle.or_geom.specs.ShapeOrder.{shape_order};
ghost use Rattle.cell_hierarchy.specs.Plain.{plain_label};
ghost use Rattle.label_binding.specs.BoundPlaces.{AreBoundPlaces};
ghost use Rattle.net_extractor.specs.Extraction.{AreNets};
ghost use Rattle.net_extractor.specs.Numbering.{IsNumbering};
ghost use Rattle.net_extractor.specs.PlainNets.{plain_net};

use cell_hierarchy::{Flat, Label};
use label_binding::bound_places;
use net_extractor::{Nets, Numbering, no_numbers, numbered_nets};
use or_geom::Memory;
use shape_bins::Bins;
use std::alloc::Global;
use std::thread::Threads;
use tech_rules::{Connect, Tech};
use worker_join::try_join_by;

/// For each label the place of the shape that it binds. With more than one worker the two halves of the labels are
/// looked up side by side.
fn places_of<'b, R: Threads>(
    rt: &R,
    alloc: Global,
    bins: &Bins,
    labels: &'b [Label<'b>],
    workers: u8,
) -> Result<Vec<Option<usize>>, Memory>
    requires { length labels.now ≤ 2 ^ 22 }
    ensures { IfOk result (λ places. AreBoundPlaces bins.now labels.now places.items) }
{
    if workers <= 1 {
        return bound_places(alloc, bins, labels);
    }
    let (front, back) = labels.split_at(labels.len() / 2);
    let first = || -> Result<Vec<Option<usize>>, Memory>
        requires { length front.now ≤ 2 ^ 22 }
        ensures { IfOk result (λ places. AreBoundPlaces bins.entry.now front.entry.now places.items) }
    { bound_places(alloc, bins, front) };
    let second = || -> Result<Vec<Option<usize>>, Memory>
        requires { length back.now ≤ 2 ^ 22 }
        ensures { IfOk result (λ places. AreBoundPlaces bins.entry.now back.entry.now places.items) }
    { bound_places(alloc, bins, back) };
    let (mut places, others) = try_join_by(rt, workers, first, second)?;
    places.extend_from_slice(&others)?;
    Ok(places)
}

/// For each label the place of the shape that it binds, and the nets of the shapes, which have no numbers yet.
fn places_and_nets<'b, R: Threads + Sync>(
    rt: &R,
    alloc: Global,
    connections: &[Connect],
    bins: &Bins,
    labels: &'b [Label<'b>],
    workers: u8,
) -> Result<(Vec<Option<usize>>, Numbering), Memory>
    requires rises { IsStrictlySortedBy shape_order bins.now }
    requires few { length labels.now ≤ 2 ^ 22 }
    ensures places { IfOk result (λ found. AreBoundPlaces bins.now labels.now found.0.items) }
    ensures numbered { IfOk result (λ found. IsNumbering connections.now bins.now found.1) }
    ensures next { IfOk result (λ found. found.1.next ≡ 0) }
{
    let places = || -> Result<Vec<Option<usize>>, Memory>
        requires { length labels.now ≤ 2 ^ 22 }
        ensures { IfOk result (λ places. AreBoundPlaces bins.entry.now labels.entry.now places.items) }
    { places_of(rt, alloc, bins, labels, workers) };
    let numbering = || -> Result<Numbering, Memory>
        requires { IsStrictlySortedBy shape_order bins.now }
        ensures { IfOk result (λ numbering. IsNumbering connections.entry.now bins.entry.now numbering
            × (numbering.next ≡ 0)) }
    { no_numbers(alloc, connections, bins) };
    try_join_by(rt, workers, places, numbering)
}

/// The nets of the labels: one entry for each label, in order. The net is none exactly where the label binds no shape,
/// two nets are equal exactly where the bound shapes are on one net, and the numbers run from 0 by first appearance.
/// The shapes are in order and distinct, `bins` is their index, and there are at most 2^22 labels. With more than one
/// worker the shapes that labels bind are looked up, half by half, while the nets of the shapes are joined.
///
/// The memory grows with the shapes and labels, and not with the pairs of shapes that touch. The labels themselves are
/// not copied.
pub fn extract_by<'b, R: Threads + Sync>(
    rt: &R,
    alloc: Global,
    tech: &Tech,
    flat: &Flat<'b>,
    bins: &Bins,
    workers: u8,
) -> Result<Nets<'b>, Memory>
    requires rises { IsStrictlySortedBy shape_order flat.now.shapes.now }
    requires bins { bins.now ≡ flat.now.shapes.now }
    requires few { length flat.now.labels.now ≤ 2 ^ 22 }
    ensures { IfOk result (λ nets. AreNets tech.now flat.now.shapes.now
        (map plain_label flat.now.labels.now) (map plain_net nets.labels)) }
{
    let connections = tech.connects.as_slice();
    let (places, numbering) = places_and_nets(rt, alloc, connections, bins, flat.labels, workers)?;
    numbered_nets(alloc, connections, bins, flat.labels, &places, numbering)
}
