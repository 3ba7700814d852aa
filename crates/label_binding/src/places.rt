ghost use Rattle.std.specs.Prelude.{◌≡◌, ◌≤◌, length, IfOk};
ghost use Rattle.cell_hierarchy.specs.Plain.{plain_label};
ghost use Rattle.label_binding.specs.BoundPlaces.{label_anchor, AreBoundPlaces};

use crate::anchor::Anchor;
use crate::bind::bound_shape;
use cell_hierarchy::Label;
use or_geom::Memory;
use shape_bins::{Bins, near_order};
use std::alloc::Global;

/// Up to so many labels are looked up in the order in which they are listed, more of them in an order in which near
/// ones follow one another: to bring fewer into that order would take longer than it saves.
const FEW_LABELS: usize = 1_048_576;

/// Where the label stands.
fn label_anchor(label: &Label) -> Anchor
    ensures { result ≡ label_anchor (plain_label label.now) }
{
    Anchor {
        layer: label.layer,
        at: label.at,
    }
}

/// The places for a few labels, looked up as they are listed. `Memory` comes where memory runs out.
fn places_as_listed(
    alloc: Global,
    bins: &Bins,
    labels: &[Label],
) -> Result<Vec<Option<usize>>, Memory>
    ensures { IfOk result (λ places. AreBoundPlaces bins.now labels.now places.items) }
{
    let mut places = Vec::with_capacity(alloc, labels.len())?;
    for label in labels {
        places.push(bound_shape(bins, label_anchor(label)))?;
    }
    Ok(places)
}

/// The places for many labels. Near labels are looked up one after another: what one needs of the bins is mostly in the
/// caches from the one before. `Memory` comes where memory runs out.
fn places_as_they_lie(
    alloc: Global,
    bins: &Bins,
    labels: &[Label],
) -> Result<Vec<Option<usize>>, Memory>
    requires { length labels.now ≤ 4294967295 }
    ensures { IfOk result (λ places. AreBoundPlaces bins.now labels.now places.items) }
{
    let order = near_order(alloc, labels)?;
    let mut places = vec![in alloc; None; labels.len()]?;
    for index in &order {
        let index = *index as usize;
        places[index] = bound_shape(bins, label_anchor(&labels[index]));
    }
    Ok(places)
}

/// For each label the index of the shape that it binds, or None. `Memory` comes where memory runs out.
pub fn bound_places(
    alloc: Global,
    bins: &Bins,
    labels: &[Label],
) -> Result<Vec<Option<usize>>, Memory>
    requires { length labels.now ≤ 4294967295 }
    ensures { IfOk result (λ places. AreBoundPlaces bins.now labels.now places.items) }
{
    if labels.len() <= FEW_LABELS {
        return places_as_listed(alloc, bins, labels);
    }
    places_as_they_lie(alloc, bins, labels)
}
