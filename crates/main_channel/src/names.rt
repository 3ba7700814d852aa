ghost use Rattle.std.specs.Prelude.{◌≡◌, ◌≤◌, List, ℕ, length, IfOk};
ghost use Rattle.spice_netlist.specs.Names.{index_of};
ghost use Rattle.main_channel.specs.Numbers.{found_number};

use indexmap::IndexMap;
use or_geom::{Memory, Name};
use std::alloc::Global;

/// The numbers of the channel's nets by their names.
#[derive(Drop)]
pub struct NetNumbers<'a> {
    numbers: IndexMap<&'a [u8], u32>,
}

/// Each name's index in the list, which is its net's number.
pub fn number_names<'a>(alloc: Global, names: &'a [Name]) -> Result<NetNumbers<'a>, Memory>
    requires { length names.now ≤ 4096 }
    ensures { IfOk result (λ numbers. (name : List ℕ) → found_number numbers name ≡ index_of names.now name) }
{
    let mut numbers = IndexMap::new(alloc);
    let mut index = names.len() as u32;
    // From the last to the first, so that the first of equal names is what stays.
    while index > 0 {
        index -= 1;
        numbers.insert(names[index as usize].as_bytes(), index)?;
    }
    Ok(NetNumbers { numbers })
}

impl<'a> NetNumbers<'a> {
    /// The number of the net of this name; None where the channel has no such net.
    pub fn find(&self, name: &[u8]) -> Option<u32>
        ensures { result ≡ found_number self.now name.now }
    {
        self.numbers.get(name).copied()
    }
}
