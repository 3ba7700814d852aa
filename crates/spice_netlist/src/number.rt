ghost use Rattle.std.specs.Prelude.{◌≡◌, [], IfOk};
ghost use Rattle.spice_netlist.specs.Numbers.{IsNumberOf};
ghost use Rattle.spice_netlist.specs.NetTable.{table_nets};

use indexmap::IndexSet;
use or_geom::Memory;
use std::alloc::Global;

/// Nets in the order in which they came, which are numbered by their indices.
#[derive(Drop)]
pub struct NetTable {
    nets: IndexSet<Vec<u8>>,
}

impl NetTable {
    /// A table without nets.
    pub fn new(alloc: Global) -> Self
        ensures { table_nets result ≡ [] }
    {
        NetTable {
            nets: IndexSet::new(alloc),
        }
    }

    /// The number of the net, which is added where it didn't come yet.
    pub fn number(&mut self, alloc: Global, net: &[u8]) -> Result<usize, Memory>
        ensures { IfOk result (λ number. IsNumberOf (table_nets self.old) net.now number (table_nets self.new)) }
    {
        if let Some(number) = self.nets.get_index_of(net) {
            return Ok(number);
        }
        let (number, _) = self.nets.insert_full(Vec::from_slice(alloc, net)?)?;
        Ok(number)
    }
}
