ghost use Rattle.std.specs.Prelude.{◌≡◌, map, IfOk, MatchOption};
ghost use Rattle.device_lvs.specs.Lookup.{table_names, IsSearchable};
ghost use Rattle.device_lvs.specs.NetNames.{HasName, HasSomeName};
ghost use Rattle.device_lvs.specs.Sorted.{AreNamesSorted, by_net};

use crate::sorted::nets_in_order;
use drawn_devices::NetName;
use or_geom::Memory;
use std::alloc::Global;

/// The names of nets, by the nets' numbers.
#[derive(Drop)]
pub struct NameTable<'a> {
    /// The numbers, in order.
    nets: Vec<u32>,
    /// The same numbers, each with its name.
    named: Vec<(u32, &'a [u8])>,
}

/// The numbers alone.
fn numbers_of(alloc: Global, named: &[(u32, &[u8])]) -> Result<Vec<u32>, Memory>
    ensures { IfOk result (λ nets. nets.items ≡ map (λ p. p.0) named.now) }
{
    let mut nets = Vec::new(alloc);
    for place in 0..named.len() {
        nets.push(named[place].0)?;
    }
    Ok(nets)
}

/// The table of these names.
pub fn table_of<'a>(alloc: Global, names: &'a [NetName]) -> Result<NameTable<'a>, Memory>
    ensures search { IfOk result IsSearchable }
    ensures names { IfOk result (λ table. AreNamesSorted by_net names.now (table_names table)) }
{
    let named = nets_in_order(alloc, names)?;
    let nets = numbers_of(alloc, &named)?;
    Ok(NameTable { nets, named })
}

impl<'a> NameTable<'a> {
    /// A name of the net with this number, if it has one.
    pub fn name_of(&self, net: u32) -> Option<&'a [u8]>
        requires { IsSearchable self.now }
        ensures { MatchOption result (HasSomeName (table_names self.now) net
            → ⊥) (λ name. HasName (table_names self.now) net name.now) }
    {
        match self.nets.binary_search(&net) {
            Ok(place) => Some(self.named[place].1),
            Err(_) => None,
        }
    }
}
