ghost use Rattle.std.specs.Prelude.{◌≡◌, ◌++◌, ◌∷◌, [], take, OnOk};

use or_geom::Memory;
use std::alloc::Global;

/// The names of the instances down to the subcircuit that the walk is in, once as paths and once as nets have them.
#[derive(Drop)]
pub struct InstancePath {
    /// The names, each with a `/` behind it.
    pub path: Vec<u8>,
    /// The names, each with an `A` behind it.
    pub net: Vec<u8>,
}

impl InstancePath {
    /// The path to the top, which has no names.
    pub fn new(alloc: Global) -> Self
        ensures path { result.path.items ≡ [] }
        ensures net { result.net.items ≡ [] }
    {
        InstancePath {
            path: Vec::new(alloc),
            net: Vec::new(alloc),
        }
    }

    /// Goes into the instance of this name.
    pub fn enter(&mut self, name: &[u8]) -> Result<(), Memory>
        ensures path { OnOk result (self.new.path.items ≡ (self.old.path.items ++ name.now) ++ 47 ∷ []) }
        ensures net { OnOk result (self.new.net.items ≡ (self.old.net.items ++ name.now) ++ 65 ∷ []) }
    {
        self.path.extend_from_slice(name)?;
        self.path.push(b'/')?;
        self.net.extend_from_slice(name)?;
        self.net.push(b'A')?;
        Ok(())
    }

    /// Goes back to where the first so many bytes lead.
    pub fn back_to(&mut self, count: usize)
        ensures path { self.new.path.items ≡ take count self.old.path.items }
        ensures net { self.new.net.items ≡ take count self.old.net.items }
    {
        self.path.truncate(count);
        self.net.truncate(count);
    }
}
