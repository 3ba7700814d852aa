ghost use Rattle.std.specs.Prelude.{◌≡◌, [], None};

use crate::candidates::KeptCandidates;
use crate::clear::ClearArea;
use crate::violation::Violation;
use crate::width::WideArea;
use std::alloc::Global;

/// What a worker hands from function to function and carries from shape to shape: one record, so that these functions
/// take fewer parameters.
#[derive(Drop)]
pub struct Notes {
    /// The allocator of a search for a wide area.
    pub alloc: Global,
    /// Indices of the shapes near the one that is looked at, in a list that each search uses again.
    pub near: Vec<usize>,
    /// The violations found: all of the worker's, or those of one shape where only the first violation is asked for.
    pub found: Vec<Violation>,
    /// The wide area found last: the next shapes often lie in it too.
    pub wide: Option<WideArea>,
    /// The clear box found last, for the same reason.
    pub clear: Option<ClearArea>,
    /// The shapes of one layer that meet the tile, from which the partners of its first shapes are listed.
    pub candidates: Option<KeptCandidates>,
}

impl Notes {
    /// Nothing yet.
    pub fn new(alloc: Global) -> Notes
        ensures found { result.found.items ≡ [] }
        ensures wide { result.wide ≡ None }
        ensures clear { result.clear ≡ None }
        ensures candidates { result.candidates ≡ None }
    {
        Notes {
            alloc,
            near: Vec::new(alloc),
            found: Vec::new(alloc),
            wide: None,
            clear: None,
            candidates: None,
        }
    }
}
