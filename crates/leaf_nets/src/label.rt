ghost use Rattle.std.specs.Prelude.{◌≡◌, ◌↔◌, ◌<◌, IsTrue, length, slice_get, Some};
ghost use Rattle.std.specs.List.Sorted.{IsStrictlySortedBy};
ghost use Rattle.or_geom.specs.ShapeOrder.{shape_order};
ghost use Rattle.cell_hierarchy.specs.Plain.{plain_label};
ghost use Rattle.leaf_shapes.specs.Candidates.{IsLabelOfPin};
ghost use Rattle.leaf_nets.specs.Numbers.{IsNetNumberOf};

use cell_hierarchy::Label;
use label_binding::{Anchor, bound_shape};
use shape_bins::Bins;

/// Whether the label is one of the pin's and stands in the cell itself.
pub fn is_label_of(pin: &str, label: &Label) -> bool
    ensures { IsTrue result ↔ IsLabelOfPin pin.now (plain_label label.now) }
{
    if !label.path.is_empty() {
        return false;
    }
    label.name.as_bytes().eq_ignore_ascii_case(pin.as_bytes())
}

/// The label at an index.
pub fn label_at<'b>(labels: &[Label<'b>], index: usize) -> Label<'b>
    requires { index < length labels.now }
    ensures { slice_get labels.now index ≡ Some result }
{
    labels[index]
}

/// The net of the shape that the label binds, if it binds one. `nets` has the number of each shape's net.
pub fn net_of(nets: &[u32], bins: &Bins, label: &Label) -> Option<u32>
    requires rises { IsStrictlySortedBy shape_order bins.now }
    requires sized { length nets.now ≡ length bins.now }
    ensures { IsNetNumberOf bins.now nets.now (plain_label label.now) result }
{
    let anchor = Anchor {
        layer: label.layer,
        at: label.at,
    };
    let Some(place) = bound_shape(bins, anchor) else {
        return None;
    };
    Some(nets[place])
}
