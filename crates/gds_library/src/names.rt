ghost use Rattle.std.specs.Prelude.{◌≡◌, ◌||◌, List, ℕ, not, false, IfOk, OnOk};
ghost use Rattle.std.specs.Str.{bytes_eq};
ghost use Rattle.gds_library.specs.StructureNames.{has_name};

use or_geom::Memory;
use std::alloc::Global;
use std::collections::BTreeSet;

/// The names of the structures so far, as they stand in the file.
#[derive(Drop)]
pub struct StructureNames<'a> {
    seen: BTreeSet<&'a [u8]>,
}

impl<'a> StructureNames<'a> {
    pub fn new(alloc: Global) -> Self
        ensures { (text : List ℕ) → has_name result text ≡ false }
    {
        StructureNames {
            seen: BTreeSet::new(alloc),
        }
    }

    /// Adds a name, and says whether it is new.
    pub fn add(&mut self, name: &'a [u8]) -> Result<bool, Memory>
        ensures new { IfOk result (λ new. new ≡ not (has_name self.old name.now)) }
        ensures added { OnOk result ((text : List ℕ)
            → has_name self.new text ≡ (bytes_eq text name.now || has_name self.old text)) }
    {
        Ok(self.seen.insert(name)?)
    }
}
