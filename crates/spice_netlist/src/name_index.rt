ghost use Rattle.std.specs.Prelude.{◌≡◌, List, ℕ, IfOk};
ghost use Rattle.spice_netlist.specs.Names.{index_of};
ghost use Rattle.spice_netlist.specs.Found.{found};

use indexmap::IndexMap;
use or_geom::{Memory, Name};
use std::alloc::Global;

/// The indices of names in a list. Of equal names the first counts.
#[derive(Drop)]
pub struct NameIndex<'a> {
    indices: IndexMap<&'a [u8], usize>,
}

/// The indices of these names.
pub fn index_names<'a>(alloc: Global, names: &'a [Name]) -> Result<NameIndex<'a>, Memory>
    ensures { IfOk result (λ indices. (name : List ℕ) → found indices name ≡ index_of names.now name) }
{
    let mut indices = IndexMap::new(alloc);
    let mut index = names.len();
    // From the last to the first, so that the first of equal names is what stays.
    while index > 0 {
        index -= 1;
        indices.insert(names[index].as_bytes(), index)?;
    }
    Ok(NameIndex { indices })
}

impl<'a> NameIndex<'a> {
    /// The index of the name; None where it isn't there.
    pub fn find(&self, name: &[u8]) -> Option<usize>
        ensures { result ≡ found self.now name.now }
    {
        self.indices.get(name).copied()
    }
}
