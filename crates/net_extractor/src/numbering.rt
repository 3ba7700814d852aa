ghost use Rattle.std.specs.Prelude.{◌≡◌, ◌+◌, ◌^◌, ◌<◌, length, IfOk};
ghost use Rattle.std.specs.List.Sorted.{IsStrictlySortedBy};
ghost use Rattle.or_geom.specs.ShapeOrder.{shape_order};
ghost use Rattle.net_extractor.specs.Numbering.{AreRootsWithin, IsNumberAt, IsNumbering};

use crate::roots::net_roots;
use or_geom::Memory;
use shape_bins::Bins;
use std::alloc::Global;
use tech_rules::Connect;

/// The numbers of nets so far.
#[derive(Drop)]
pub struct Numbering {
    /// For each shape the place of one that stands for its net.
    pub roots: Vec<u32>,
    /// For each place the number of the net that it stands for, where that has one.
    pub numbers: Vec<Option<u32>>,
    /// The number of the next net.
    pub next: u32,
}

/// No net has a number yet.
pub fn no_numbers(alloc: Global, connections: &[Connect], bins: &Bins) -> Result<Numbering, Memory>
    requires rises { IsStrictlySortedBy shape_order bins.now }
    ensures numbered { IfOk result (IsNumbering connections.now bins.now) }
    ensures next { IfOk result (λ numbering. numbering.next ≡ 0) }
{
    let roots = net_roots(alloc, connections, bins)?;
    let numbers = vec![in alloc; None; roots.len()]?;
    Ok(Numbering {
        roots,
        numbers,
        next: 0,
    })
}

/// The number of the net of the shape at a place. A net that has none gets the next number.
pub fn number_at(place: usize, numbering: &mut Numbering) -> u32
    requires inside { place < length numbering.old.roots.items }
    requires within { AreRootsWithin numbering.old }
    requires few { numbering.old.next + 1 < 2 ^ 32 }
    ensures { IsNumberAt numbering.old place result numbering.new }
{
    let root = numbering.roots[place] as usize;
    if let Some(number) = numbering.numbers[root] {
        return number;
    }
    let number = numbering.next;
    numbering.numbers[root] = Some(number);
    numbering.next = number + 1;
    number
}
