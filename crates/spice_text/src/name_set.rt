ghost use Rattle.std.specs.Prelude.{◌≡◌, ◌++◌, ◌∷◌, [], not, IfOk, OnOk};
ghost use Rattle.spice_text.specs.Words.{is_among, with_name};

use indexmap::IndexSet;
use or_geom::Memory;
use std::alloc::Global;
use std::marker::Model;

/// Names that differ, in the order in which they came. Contracts see it as their list.
#[derive(Drop)]
pub struct NameSet {
    seen: IndexSet<Vec<u8>>,
}

impl Model for NameSet {
    ghost use Rattle.std.specs.Prelude.{List, ℕ, map};
    ghost use Rattle.spice_text.specs.NameLists.{bytes_of};

    ghost Value = { List (List ℕ) };

    ghost view = { λ n. map bytes_of n.seen.keys };
}

impl NameSet {
    pub fn new(alloc: Global) -> Self
        ensures { result ≡ [] }
    {
        NameSet {
            seen: IndexSet::new(alloc),
        }
    }

    /// Whether the name is there.
    pub fn holds(&self, name: &[u8]) -> bool
        ensures { result ≡ is_among name.now self.now }
    {
        self.seen.contains(name)
    }

    /// Adds a name, and says whether it is new.
    pub fn add(&mut self, alloc: Global, name: &[u8]) -> Result<bool, Memory>
        ensures new { IfOk result (λ new. new ≡ not (is_among name.now self.old)) }
        ensures names { OnOk result (self.new ≡ with_name self.old name.now) }
    {
        let name = Vec::from_slice(alloc, name)?;
        Ok(self.seen.insert(name)?)
    }
}
