ghost use Rattle.std.specs.Prelude.{◌≡◌, ◌+◌, ◌<◌, length, map, IfOk, IsTrue, MatchOption};
ghost use Rattle.device_lvs.specs.NetNames.{pair_order, IsLeastPair, AreNotJoined};
ghost use Rattle.device_lvs.specs.Sorted.{AreJoinedAt, AreLeastBelow, names_at, net_first};
ghost use Rattle.std.specs.Ordering.{is_lt};

use crate::sorted::{are_same, nets_in_order};
use drawn_devices::NetName;
use or_geom::{Memory, Name};
use std::alloc::Global;

/// Whether the net at the place and the next one are the same, and their names differ.
fn is_joined_at(nets: &[(u32, &[u8])], place: usize) -> bool
    requires { place + 1 < length nets.now }
    ensures yes { IsTrue result → AreJoinedAt (map net_first nets.now) place }
    ensures no { AreJoinedAt (map net_first nets.now) place → IsTrue result }
{
    let (net, name) = nets[place];
    let (next, other) = nets[place + 1];
    net == next && !are_same(name, other)
}

/// Whether the names at the first place and the next one come before those at the second and its next one.
fn is_less_at(nets: &[(u32, &[u8])], place: usize, other: usize) -> bool
    requires place { place + 1 < length nets.now }
    requires other { other + 1 < length nets.now }
    ensures { result ≡ is_lt (pair_order (names_at (map net_first nets.now) place)
        (names_at (map net_first nets.now) other)) }
{
    let by_first = nets[place].1.cmp(nets[other].1);
    by_first
        .then(nets[place + 1].1.cmp(nets[other + 1].1))
        .is_lt()
}

/// The least place so far, with one place more.
fn lesser_place(nets: &[(u32, &[u8])], least: Option<usize>, place: usize) -> Option<usize>
    requires inside { place + 1 < length nets.now }
    requires so_far { AreLeastBelow (map net_first nets.now) place least }
    ensures { AreLeastBelow (map net_first nets.now) (place + 1) result }
{
    if !is_joined_at(nets, place) {
        return least;
    }
    match least {
        Some(other) => {
            if is_less_at(nets, place, other) {
                Some(place)
            } else {
                Some(other)
            }
        }
        None => Some(place),
    }
}

/// Of the places at which one net stands beside itself with another name, the one with the least names.
fn least_place(nets: &[(u32, &[u8])]) -> Option<usize>
    ensures { AreLeastBelow (map net_first nets.now) (length nets.now) result }
{
    let mut least = None;
    if nets.is_empty() {
        return least;
    }
    for place in 0..nets.len() - 1 {
        least = lesser_place(nets, least, place);
    }
    least
}

/// The name at the place and the next one.
fn names_at(alloc: Global, nets: &[(u32, &[u8])], place: usize) -> Result<(Name, Name), Memory>
    requires { place + 1 < length nets.now }
    ensures { IfOk result (λ pair. pair ≡ names_at (map net_first nets.now) place) }
{
    let first = Name::from_bytes(alloc, nets[place].1)?;
    let second = Name::from_bytes(alloc, nets[place + 1].1)?;
    Ok((first, second))
}

/// The least two names that are on one net, the lesser first, if there are any.
pub fn least_joined(alloc: Global, names: &[NetName]) -> Result<Option<(Name, Name)>, Memory>
    ensures { IfOk result (λ found. MatchOption found (AreNotJoined names.now)
        (λ pair. IsLeastPair names.now pair.0 pair.1)) }
{
    let sorted = nets_in_order(alloc, names)?;
    match least_place(&sorted) {
        Some(place) => Ok(Some(names_at(alloc, &sorted, place)?)),
        None => Ok(None),
    }
}
