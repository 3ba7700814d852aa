ghost use Rattle.std.specs.Prelude.{◌≡◌, length};
ghost use Rattle.std.specs.List.Sorted.{IsPermutation, IsSorted};
ghost use Rattle.std.specs.Ordering.{nat_cmp};
ghost use Rattle.or_geom.specs.ShapeOrder.{shape_order};
ghost use Rattle.cell_hierarchy.specs.LabelLaws.{flat_label_order};

use crate::flat::Label;
use or_geom::Shape;

/// Who sorts the lists of a layout, which may have millions of items: one thread, or several. Items that compare as
/// equal may change places.
pub trait Sorter {
    /// What has to hold of it for it to sort: threads may need what their handle allows.
    ghost ready: { Self → Type 0 };

    /// Sorts shapes.
    fn sort_shapes(&self, shapes: &mut [Shape])
        requires { ready self.now }
        ensures permutation { IsPermutation shapes.old shapes.new }
        ensures len { length shapes.new ≡ length shapes.old }
        ensures sorted { IsSorted shape_order shapes.new };

    /// Sorts labels.
    fn sort_labels(&self, labels: &mut [Label])
        requires { ready self.now }
        ensures permutation { IsPermutation labels.old labels.new }
        ensures len { length labels.new ≡ length labels.old }
        ensures sorted { IsSorted flat_label_order labels.new };

    /// Sorts numbers.
    fn sort_numbers(&self, numbers: &mut [u64])
        requires { ready self.now }
        ensures permutation { IsPermutation numbers.old numbers.new }
        ensures len { length numbers.new ≡ length numbers.old }
        ensures sorted { IsSorted nat_cmp numbers.new };
}

/// The thread that calls sorts.
#[derive(Clone, Copy)]
pub struct OneThread;

impl Sorter for OneThread {
    ghost use Rattle.std.specs.Prelude.{⊤};

    ghost ready = { λ _. ⊤ };

    fn sort_shapes(&self, shapes: &mut [Shape]) {
        shapes.sort_unstable();
    }

    fn sort_labels(&self, labels: &mut [Label]) {
        labels.sort_unstable();
    }

    fn sort_numbers(&self, numbers: &mut [u64]) {
        numbers.sort_unstable();
    }
}
