ghost use Rattle.std.specs.Prelude.{◌<◌, ℕ, length, Contains, IfOk};
ghost use Rattle.net_extractor.specs.Sets.{AreAlone, AreRootsOver, AreSameSets, AreThesePlaces, FindsRoot, IsFalling};
ghost use Rattle.net_extractor.specs.Sets.{JoinsSets};

use or_geom::Memory;
use std::alloc::Global;

/// Sets of one place each, for so many places: a list with the place itself over each. `order` contains all places.
pub fn each_alone(alloc: Global, order: &[u32], count: usize) -> Result<Vec<u32>, Memory>
    requires { (place : ℕ) → place < count → Contains order.now place }
    ensures { IfOk result (λ above. AreAlone count above.items) }
{
    let mut above = vec![in alloc; 0; count]?;
    for place in order {
        if (*place as usize) < count {
            above[*place as usize] = *place;
        }
    }
    Ok(above)
}

/// The root of the set that the place is in. The way to it is halved: what stands over a place on it is replaced by
/// what stands over that, and so later ways are shorter.
#[inline(always)]
pub fn root(above: &mut [u32], place: usize) -> u32
    requires inside { place < length above.old }
    requires falls { IsFalling above.old }
    ensures { FindsRoot above.old place result above.new }
{
    let mut at = place;
    let mut next = above[at];
    while next as usize != at {
        let over = above[next as usize];
        above[at] = over;
        at = over as usize;
        next = above[at];
    }
    next
}

/// Joins the sets that the places are in: the lesser of their roots is the root of both.
#[inline(always)]
pub fn join(above: &mut [u32], a: usize, b: usize)
    requires first { a < length above.old }
    requires second { b < length above.old }
    requires falls { IsFalling above.old }
    ensures { JoinsSets (AreThesePlaces a b) above.old above.new }
{
    let first = root(above, a);
    let second = root(above, b);
    if first < second {
        above[second as usize] = first;
    } else {
        above[first as usize] = second;
    }
}

/// Sets the root of its set over each place. What stands over a place is no greater, so its root is known before.
pub fn flatten(above: &mut [u32])
    requires { IsFalling above.old }
    ensures alike { AreSameSets above.old above.new }
    ensures flat { AreRootsOver above.new }
{
    for place in 0..above.len() {
        let next = above[place] as usize;
        above[place] = above[next];
    }
}
