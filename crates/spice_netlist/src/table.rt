ghost use Rattle.std.specs.Prelude.{◌≡◌, ◌<◌, length, slice_index_or};
ghost use Rattle.spice_netlist.specs.Resolved.{subckt_name_at, ports_at, leaf_at, instances_at};

use crate::resolved::ResolvedSubckt;
use or_geom::Name;

/// The subcircuit at the index.
pub fn subckt_at(subckts: &[ResolvedSubckt], index: usize) -> &ResolvedSubckt
    requires { index < length subckts.now }
    ensures name { result.now.name ≡ subckt_name_at subckts.now index }
    ensures ports { result.now.ports ≡ ports_at subckts.now index }
    ensures leaf { result.now.leaf ≡ leaf_at subckts.now index }
    ensures instances { result.now.instances ≡ instances_at subckts.now index }
{
    &subckts[index]
}

/// The ports of the subcircuit at the index; none where there is no subcircuit.
pub fn ports_of(subckts: &[ResolvedSubckt], index: usize) -> &[Name]
    ensures { result.now ≡ ports_at subckts.now index }
{
    match subckts.get(index) {
        Some(subckt) => subckt.ports.as_slice(),
        None => &[],
    }
}

/// What the table has for the index.
pub fn entry<T>(table: &[T], index: usize) -> &T
    requires { index < length table.now }
    ensures { (other : T) → slice_index_or table.now index other ≡ result.now }
{
    &table[index]
}
