ghost use Rattle.std.specs.Prelude.{◌≡◌, ◌+◌, ◌<◌, length, map, IfOk, IsTrue, MatchOption};
ghost use Rattle.or_geom.specs.Least.{IsLeast};
ghost use Rattle.device_lvs.specs.NetNames.{IsOnTwoNets, AreNotSplit};
ghost use Rattle.device_lvs.specs.Sorted.{AreSplitAt, AreNotSplitBelow, IsFirstSplit, name_first};

use crate::sorted::{are_same, names_in_order};
use drawn_devices::NetName;
use or_geom::{Memory, Name};
use std::alloc::Global;

/// Whether the name at the place and the next one are the same, and their nets differ.
fn is_split_at(names: &[(&[u8], u32)], place: usize) -> bool
    requires { place + 1 < length names.now }
    ensures yes { IsTrue result → AreSplitAt (map name_first names.now) place }
    ensures no { AreSplitAt (map name_first names.now) place → IsTrue result }
{
    let (name, net) = names[place];
    let (next, other) = names[place + 1];
    are_same(name, next) && net != other
}

/// The first place at which one name stands beside itself with another net.
fn first_split(names: &[(&[u8], u32)]) -> Option<usize>
    ensures { MatchOption result (AreNotSplitBelow (map name_first names.now) (length names.now))
        (IsFirstSplit (map name_first names.now)) }
{
    if names.is_empty() {
        return None;
    }
    for place in 0..names.len() - 1 {
        if is_split_at(names, place) {
            return Some(place);
        }
    }
    None
}

/// The least name that is on two nets, if there is one.
pub fn least_split(alloc: Global, names: &[NetName]) -> Result<Option<Name>, Memory>
    ensures { IfOk result (λ found. MatchOption found (AreNotSplit names.now) (IsLeast (IsOnTwoNets names.now))) }
{
    let sorted = names_in_order(alloc, names)?;
    match first_split(&sorted) {
        Some(place) => Ok(Some(Name::from_bytes(alloc, sorted[place].0)?)),
        None => Ok(None),
    }
}
