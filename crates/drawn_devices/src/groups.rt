ghost use Rattle.std.specs.Prelude.{◌≡◌, ◌≤◌, ℕ, length, map, Some, IfOk, OnOk};
ghost use Rattle.net_extractor.specs.FirstAppearance.{AreNumberedInOrder};
ghost use Rattle.drawn_devices.specs.Groups.{AreBoxGroups, IsOpened, IsPut};

use or_geom::{Items, Memory, Rect, Shape};
use std::alloc::Global;

/// Begins the group with this number, where it is the next one.
fn open_group(alloc: Global, number: usize, groups: &mut Vec<Items<Rect>>) -> Result<(), Memory>
    requires { number ≤ length groups.old.items }
    ensures { OnOk result (IsOpened number groups.old.items groups.new.items) }
{
    if number < groups.len() {
        return Ok(());
    }
    Ok(groups.push(Items::new(alloc))?)
}

/// Puts a box to those with its number, which is that of one of the groups or the next.
fn put(alloc: Global, rect: Rect, number: u32, groups: &mut Vec<Items<Rect>>) -> Result<(), Memory>
    requires { number ≤ length groups.old.items }
    ensures { OnOk result (IsPut rect number groups.old.items groups.new.items) }
{
    let at = number as usize;
    open_group(alloc, at, groups)?;
    groups[at].push(rect)?;
    Ok(())
}

/// The boxes of the shapes by number, each list in the order of the shapes.
pub fn grouped(alloc: Global, shapes: &[Shape], numbers: &[u32]) -> Result<Vec<Items<Rect>>, Memory>
    requires sized { length numbers.now ≡ length shapes.now }
    requires numbered { AreNumberedInOrder (map (λ (number : ℕ). Some number) numbers.now) }
    ensures { IfOk result (λ groups. AreBoxGroups shapes.now numbers.now groups.items) }
{
    let mut groups = Vec::new(alloc);
    for index in 0..shapes.len() {
        put(alloc, shapes[index].rect, numbers[index], &mut groups)?;
    }
    Ok(groups)
}
