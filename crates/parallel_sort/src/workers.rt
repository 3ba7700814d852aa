use cell_hierarchy::{Label, Sorter};
use or_geom::Shape;
use rayon::prelude::par_sort_unstable;
use std::thread::Threads;

/// Sorts for so many workers: one worker is the thread that calls; for more the lists are sorted by as many threads as
/// there are processors.
#[derive(Drop)]
pub struct WorkerSorter<'r, R> {
    pub rt: &'r R,
    pub workers: u8,
}

impl<R: Threads + Sync> Sorter for WorkerSorter<'_, R> {
    ghost use Rattle.std.specs.Thread.{IsSync};

    ghost ready = { λ _. IsSync R.row };

    fn sort_shapes(&self, shapes: &mut [Shape]) {
        if self.workers == 1 {
            shapes.sort_unstable();
            return;
        }
        par_sort_unstable(self.rt, shapes);
    }

    fn sort_labels(&self, labels: &mut [Label]) {
        if self.workers == 1 {
            labels.sort_unstable();
            return;
        }
        par_sort_unstable(self.rt, labels);
    }

    fn sort_numbers(&self, numbers: &mut [u64]) {
        if self.workers == 1 {
            numbers.sort_unstable();
            return;
        }
        par_sort_unstable(self.rt, numbers);
    }
}
