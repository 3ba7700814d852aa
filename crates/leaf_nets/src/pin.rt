ghost use Rattle.std.specs.Prelude.{◌≡◌, ℕ, List, ◌++◌, ◌∷◌, [], length, map};
ghost use Rattle.std.specs.List.Sorted.{IsStrictlySortedBy};
ghost use Rattle.or_geom.specs.declared.shape.Shape.{Shape};
ghost use Rattle.or_geom.specs.ShapeOrder.{shape_order};
ghost use Rattle.element_drawing.specs.PlainLabel.{PlainLabel};
ghost use Rattle.cell_hierarchy.specs.Plain.{plain_label};
ghost use Rattle.leaf_shapes.specs.Candidates.{IsLabelOfPin};
ghost use Rattle.leaf_nets.specs.Numbers.{IsNetNumberOf, IsPinBinding};

use crate::label::{is_label_of, label_at, net_of};
use cell_hierarchy::Label;
use shape_bins::Bins;

/// What the labels of a pin bind.
#[derive(Clone, Copy, Debug)]
pub enum PinBinding {
    /// The pin has no label.
    Unlabelled,
    /// Each label binds a shape on the net of this number.
    On(u32),
    /// A label binds no shape, or two bind shapes on two nets.
    Wrong,
}

/// What they bind with one more label, which binds a shape on this net, or none.
fn with_net(found: PinBinding, net: Option<u32>) -> PinBinding
    ensures { (shapes : List Shape) (nets : List ℕ) (labels : List PlainLabel) (pin : List ℕ) (label : PlainLabel)
        → IsPinBinding shapes nets labels pin found → IsLabelOfPin pin label → IsNetNumberOf shapes nets label net
        → IsPinBinding shapes nets (labels ++ label ∷ []) pin result }
{
    let Some(number) = net else {
        return PinBinding::Wrong;
    };
    match found {
        PinBinding::Unlabelled => PinBinding::On(number),
        PinBinding::On(other) => {
            if other == number {
                PinBinding::On(other)
            } else {
                PinBinding::Wrong
            }
        }
        PinBinding::Wrong => PinBinding::Wrong,
    }
}

/// What the labels of a pin bind. `nets` has the number of each shape's net.
pub fn pin_binding(nets: &[u32], bins: &Bins, labels: &[Label], pin: &str) -> PinBinding
    requires rises { IsStrictlySortedBy shape_order bins.now }
    requires sized { length nets.now ≡ length bins.now }
    ensures { IsPinBinding bins.now nets.now (map plain_label labels.now) pin.now result }
{
    let mut found = PinBinding::Unlabelled;
    for index in 0..labels.len() {
        let label = label_at(labels, index);
        if is_label_of(pin, &label) {
            found = with_net(found, net_of(nets, bins, &label));
        }
    }
    found
}
