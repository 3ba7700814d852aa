ghost use Rattle.std.specs.Prelude.{◌≡◌, ◌+◌, ◌^◌, ◌<◌, ◌≤◌, length, map, slice_get, Some, IfOk};
ghost use Rattle.std.specs.List.Sorted.{IsStrictlySortedBy};
ghost use Rattle.or_geom.specs.ShapeOrder.{shape_order};
ghost use Rattle.cell_hierarchy.specs.Plain.{plain_label};
ghost use Rattle.label_binding.specs.BoundPlaces.{label_anchor, AreBoundPlaces, IsFoundUnder};
ghost use Rattle.net_extractor.specs.Entries.{IsNetOf};
ghost use Rattle.net_extractor.specs.Extraction.{AreNetsUnder};
ghost use Rattle.net_extractor.specs.Numbering.{AreRootsWithin, IsNumbering};
ghost use Rattle.net_extractor.specs.PlainNets.{plain_net};

use crate::label::{NetLabel, Nets};
use crate::numbering::{Numbering, number_at};
use cell_hierarchy::Label;
use or_geom::{Items, Memory};
use shape_bins::Bins;
use std::alloc::Global;
use tech_rules::Connect;

/// The number of the net of the shape that a label binds, if it binds one: `place` is where that stands.
fn net_of(
    _bins: &Bins,
    _label: &Label,
    place: Option<usize>,
    numbering: &mut Numbering,
) -> Option<u32>
    requires found { IsFoundUnder _bins.now _label.now place }
    requires sized { length numbering.old.roots.items ≡ length _bins.now }
    requires within { AreRootsWithin numbering.old }
    requires few { numbering.old.next + 1 < 2 ^ 32 }
    ensures { IsNetOf _bins.now (label_anchor (plain_label _label.now)) numbering.old result numbering.new }
{
    Some(number_at(place?, numbering))
}

/// The label at an index.
fn label_at<'b>(labels: &'b [Label<'b>], index: usize) -> &'b Label<'b>
    requires { index < length labels.now }
    ensures { slice_get labels.now index ≡ Some result.now }
{
    &labels[index]
}

/// The place that stands at an index.
fn place_at(places: &[Option<usize>], index: usize) -> Option<usize>
    requires { index < length places.now }
    ensures { slice_get places.now index ≡ Some result }
{
    places[index]
}

/// The nets of the labels, which bind the shapes at these places: one entry for each label, in order. The net is none
/// exactly where the label binds no shape, two nets are equal exactly where the bound shapes are on one net, and the
/// numbers run from 0 by first appearance. The nets of the shapes, under these connections, have no numbers yet. The
/// shapes are in order and distinct, `bins` is their index, and there are at most 2^22 labels.
///
/// The memory grows with the labels, which are not copied themselves.
pub fn numbered_nets<'b>(
    alloc: Global,
    _connections: &[Connect],
    bins: &Bins,
    labels: &'b [Label<'b>],
    places: &[Option<usize>],
    numbering: Numbering,
) -> Result<Nets<'b>, Memory>
    requires rises { IsStrictlySortedBy shape_order bins.now }
    requires few { length labels.now ≤ 2 ^ 22 }
    requires places { AreBoundPlaces bins.now labels.now places.now }
    requires numbered { IsNumbering _connections.now bins.now numbering }
    requires next { numbering.next ≡ 0 }
    ensures { IfOk result (λ nets. AreNetsUnder _connections.now bins.now (map plain_label labels.now)
        (map plain_net nets.labels)) }
{
    let mut numbering = numbering;
    let mut entries = Items::new(alloc);
    for index in 0..labels.len() {
        let label = label_at(labels, index);
        let net = net_of(bins, label, place_at(places, index), &mut numbering);
        entries.push(NetLabel { label, net })?;
    }
    Ok(Nets { labels: entries })
}
