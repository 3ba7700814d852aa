ghost use Rattle.std.specs.Prelude.{◌≡◌, ◌↔◌, ◌<◌, IsTrue, MatchOption, Some, length, map, slice_get};
ghost use Rattle.std.specs.List.Sorted.{IsStrictlySortedBy};
ghost use Rattle.or_geom.specs.ShapeOrder.{shape_order};
ghost use Rattle.cell_hierarchy.specs.Plain.{plain_label};
ghost use Rattle.leaf_shapes.specs.Candidates.{HasCandidate, IsFirstCandidate, IsLabelOfPin, NoCandidate};
ghost use Rattle.leaf_shapes.specs.Wanted.{GivesNone, GivesShape, IsWanted};
ghost use Rattle.label_binding.specs.Binding.{Binds, BindsNone};
ghost use Rattle.label_binding.specs.BoundPlaces.{label_anchor};

use crate::fit::{CellSize, Fit};
use cell_hierarchy::Label;
use or_geom::Shape;
use shape_bins::Bins;

/// What a pin's shape is wanted to be.
#[derive(Clone, Copy)]
pub enum WantedShape {
    Any,
    OnLayer(u16),
    Fitting {
        layer: u16,
        fit: Fit,
        size: CellSize,
        wire: i64,
    },
}

/// Whether the shape is as wanted.
fn is_wanted(wanted: WantedShape, shape: Shape) -> bool
    ensures { IsTrue result ↔ IsWanted wanted shape }
{
    match wanted {
        WantedShape::Any => true,
        WantedShape::OnLayer(layer) => shape.layer == layer,
        WantedShape::Fitting {
            layer,
            fit,
            size,
            wire,
        } => {
            if shape.layer != layer {
                return false;
            }
            fit.holds(shape.rect, size, wire)
        }
    }
}

/// Whether the label is one of the pin's and stands in the cell itself.
fn is_label_of(pin: &str, label: &Label) -> bool
    ensures { IsTrue result ↔ IsLabelOfPin pin.now (plain_label label.now) }
{
    if !label.path.is_empty() {
        return false;
    }
    label.name.as_bytes().eq_ignore_ascii_case(pin.as_bytes())
}

/// The shape at a place.
fn shape_at(shapes: &[Shape], place: usize) -> Shape
    requires { place < length shapes.now }
    ensures { slice_get shapes.now place ≡ Some result }
{
    shapes[place]
}

/// The shape that the label binds, if it binds one.
fn bound_shape(bins: &Bins, label: &Label) -> Option<Shape>
    requires { IsStrictlySortedBy shape_order bins.now }
    ensures { MatchOption result (BindsNone bins.now (label_anchor (plain_label label.now)))
        (Binds bins.now (label_anchor (plain_label label.now))) }
{
    let Some(place) = bins.first_at(label.layer, label.at) else {
        return None;
    };
    Some(shape_at(bins.shapes(), place))
}

/// The shape that the label binds, if the label is one of the pin's and the shape is as wanted.
fn wanted_shape(bins: &Bins, label: &Label, pin: &str, wanted: WantedShape) -> Option<Shape>
    requires { IsStrictlySortedBy shape_order bins.now }
    ensures { MatchOption result (GivesNone wanted bins.now pin.now (plain_label label.now))
        (GivesShape wanted bins.now pin.now (plain_label label.now)) }
{
    if !is_label_of(pin, label) {
        return None;
    }
    let Some(shape) = bound_shape(bins, label) else {
        return None;
    };
    if !is_wanted(wanted, shape) {
        return None;
    }
    Some(shape)
}

/// The label at an index.
fn label_at<'b>(labels: &[Label<'b>], index: usize) -> Label<'b>
    requires { index < length labels.now }
    ensures { slice_get labels.now index ≡ Some result }
{
    labels[index]
}

/// Of the shapes that the pin's labels bind, in order of labels, the first that is as wanted.
pub fn first_candidate(
    bins: &Bins,
    labels: &[Label],
    pin: &str,
    wanted: WantedShape,
) -> Option<Shape>
    requires { IsStrictlySortedBy shape_order bins.now }
    ensures { MatchOption result (NoCandidate (IsWanted wanted) bins.now (map plain_label labels.now) pin.now)
        (IsFirstCandidate (IsWanted wanted) bins.now (map plain_label labels.now) pin.now) }
{
    for index in 0..labels.len() {
        let label = label_at(labels, index);
        if let Some(shape) = wanted_shape(bins, &label, pin, wanted) {
            return Some(shape);
        }
    }
    None
}

/// Whether one of the shapes that the pin's labels bind is as wanted.
pub fn has_candidate(bins: &Bins, labels: &[Label], pin: &str, wanted: WantedShape) -> bool
    requires { IsStrictlySortedBy shape_order bins.now }
    ensures { IsTrue result ↔ HasCandidate (IsWanted wanted) bins.now (map plain_label labels.now) pin.now }
{
    first_candidate(bins, labels, pin, wanted).is_some()
}
