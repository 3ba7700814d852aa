use or_geom::{Point, Shape};

/// A label of the flat layout: its path, which is the names of the instances from the top separated by `/`, its name,
/// the index of its layer in the technology's list, and its point in nanometres. The texts lie in an arena.
#[derive(Clone, Copy, Debug)]
pub struct Label<'b> {
    pub path: &'b str,
    pub name: &'b str,
    pub layer: u16,
    pub at: Point,
}

/// The flat layout of a structure: its shapes and its labels, each list in order and without repetition. Both lie in an
/// arena, with the labels' texts. All coordinates are the structure's own, in nanometres, and fit 32 bits.
#[derive(Clone, Copy, Debug)]
pub struct Flat<'b> {
    pub shapes: &'b [Shape],
    pub labels: &'b [Label<'b>],
}

fn share<T: Sync>(_shared: &T) {}

/// A flat layout may be read by several threads at once: this function is the proof that it is `Sync`.
pub fn flat_is_shared(flat: &Flat) {
    share(flat);
}
