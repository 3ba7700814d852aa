ghost use Rattle.std.specs.Prelude.{MatchOption};
ghost use Rattle.label_binding.specs.Binding.{BindsNone};
ghost use Rattle.label_binding.specs.Bound.{IsBoundAt};

use crate::anchor::Anchor;
use shape_bins::Bins;

/// The index of the shape that a label binds: the first shape of its layer whose closed box contains its point.
pub fn bound_shape(bins: &Bins, label: Anchor) -> Option<usize>
    ensures { MatchOption result (BindsNone bins.now label) (IsBoundAt bins.now label) }
{
    bins.first_at(label.layer, label.at)
}
