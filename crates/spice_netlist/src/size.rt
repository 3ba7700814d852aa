ghost use Rattle.std.specs.Prelude.{◌≡◌, length, IfOk};
ghost use Rattle.spice_netlist.specs.Walk.{visits_by, walk_at};
ghost use Rattle.spice_netlist.specs.Tables.{HoldsForReferences, IsTable, IsSubcktOrder};
ghost use Rattle.spice_netlist.specs.Sizes.{both, walk_size, pins_at};

use crate::resolved::{ResolvedInstance, ResolvedSubckt};
use crate::table::{entry, subckt_at};
use or_geom::Memory;
use std::alloc::Global;

/// The most leaf instances that flat rows have.
pub const MOST_LEAVES: u64 = 1 << 20;
/// The most pins that flat rows have, the top's ports among them.
pub const MOST_PINS: u64 = 1 << 24;

/// How many leaf instances and pins there are. Each number stands still one above what is allowed.
#[derive(Clone, Copy)]
pub struct Size {
    pub leaves: u64,
    pub pins: u64,
}

/// How many both have together.
fn both(first: Size, second: Size) -> Size
    ensures { result ≡ both first second }
{
    Size {
        leaves: first
            .leaves
            .saturating_add(second.leaves)
            .min(MOST_LEAVES + 1),
        pins: first.pins.saturating_add(second.pins).min(MOST_PINS + 1),
    }
}

/// How many leaf instances and pins the instances and all below them have. `below` has it for each subcircuit that they
/// refer to.
fn walk_size(subckts: &[ResolvedSubckt], instances: &[ResolvedInstance], below: &[Size]) -> Size
    requires sized { length below.now ≡ length subckts.now }
    requires known { HoldsForReferences (λ index. walk_size subckts.now (walk_at subckts.now index)) below.now
        instances.now }
    ensures { result ≡ walk_size subckts.now (visits_by subckts.now (walk_at subckts.now) instances.now) }
{
    let mut size = Size { leaves: 0, pins: 0 };
    for instance in instances {
        let Some(index) = instance.index else {
            continue;
        };
        if subckt_at(subckts, index).leaf {
            let pins = instance.nodes.as_slice().len() as u64;
            size = both(size, Size { leaves: 1, pins });
        }
        size = both(size, *entry(below, index));
    }
    size
}

/// For each subcircuit of the order how many leaf instances and pins there are below it.
pub fn sizes(
    alloc: Global,
    subckts: &[ResolvedSubckt],
    order: &[usize],
) -> Result<Vec<Size>, Memory>
    requires { IsSubcktOrder subckts.now order.now }
    ensures { IfOk result (λ sizes. IsTable (λ index. walk_size subckts.now (walk_at subckts.now index)) order.now
        sizes.items) }
{
    let mut sizes = vec![in alloc; Size { leaves: 0, pins: 0 }; subckts.len()]?;
    for node in order {
        sizes[*node] = walk_size(
            subckts,
            subckt_at(subckts, *node).instances.as_slice(),
            &sizes,
        );
    }
    Ok(sizes)
}

/// How many pins there are at the index; none past the end.
pub fn pin_count(sizes: &[Size], index: usize) -> u64
    ensures { result ≡ pins_at sizes.now index }
{
    match sizes.get(index) {
        Some(size) => size.pins,
        None => 0,
    }
}
