ghost use Rattle.std.specs.Prelude.{◌≡◌, false, IfNone, IfSome, IsTrue};
ghost use Rattle.device_entries.specs.Counts.{AreEven, IsLeastUneven};
ghost use Rattle.device_entries.specs.Parting.{ComesFirst, ArePartedAt, HaveSameAt};

use crate::entry::DeviceEntry;
use crate::order::compare;

/// An entry that the transistors of a layout and those of a subcircuit don't have equally often.
#[derive(Debug, Drop)]
pub enum Uneven {
    /// The subcircuit has it more often.
    Absent(DeviceEntry),
    /// The layout has it more often.
    Extra(DeviceEntry),
}

/// Whether the two lists have one entry at the place.
fn are_same_at(entries: &[DeviceEntry], others: &[DeviceEntry], place: usize) -> bool
    ensures yes { IsTrue result → HaveSameAt entries.now others.now place }
    ensures no { result ≡ false → HaveSameAt entries.now others.now place → ⊥ }
{
    match entries.get(place) {
        Some(entry) => match others.get(place) {
            Some(other) => compare(entry, other).is_eq(),
            None => false,
        },
        None => false,
    }
}

/// How many entries at the front of both lists are the same.
fn common_length(entries: &[DeviceEntry], others: &[DeviceEntry]) -> usize
    ensures { ArePartedAt entries.now others.now result }
{
    for place in 0..entries.len() {
        if !are_same_at(entries, others, place) {
            return place;
        }
    }
    entries.len()
}

/// Whether the first list has an entry at the place, and the second a greater one there or none.
fn comes_first(entries: &[DeviceEntry], others: &[DeviceEntry], place: usize) -> bool
    ensures yes { IsTrue result → ComesFirst entries.now others.now place }
    ensures no { result ≡ false → ComesFirst entries.now others.now place → ⊥ }
{
    match entries.get(place) {
        Some(entry) => match others.get(place) {
            Some(other) => compare(entry, other).is_lt(),
            None => true,
        },
        None => false,
    }
}

/// The least entry that the transistors of a layout and those of a subcircuit don't have equally often, if there is
/// one. Where the lists, in order, part, the lesser entry is the one: what stands before is in both, and all that
/// follows is greater.
pub fn least_uneven(drawn: Vec<DeviceEntry>, listed: Vec<DeviceEntry>) -> Option<Uneven>
    ensures none { IfNone result (AreEven drawn.items listed.items) }
    ensures least { IfSome result (IsLeastUneven drawn.items listed.items) }
{
    let mut drawn = drawn;
    let mut listed = listed;
    drawn.sort_unstable_by(compare);
    listed.sort_unstable_by(compare);
    let place = common_length(&drawn, &listed);
    if comes_first(&drawn, &listed, place) {
        return Some(Uneven::Extra(drawn.swap_remove(place)));
    }
    if comes_first(&listed, &drawn, place) {
        return Some(Uneven::Absent(listed.swap_remove(place)));
    }
    None
}
