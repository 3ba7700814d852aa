ghost use Rattle.std.specs.Prelude.{◌≡◌, Some, IfOk};
ghost use Rattle.std.specs.Ordering.{nat_cmp, is_gt};
ghost use Rattle.std.specs.Cmp.Lexicographic.{slice_cmp};
ghost use Rattle.spice_netlist.specs.Least.{lesser_of};

use or_geom::{Memory, Name};
use std::alloc::Global;

/// Whether the first stands after the second in byte order.
fn is_after(first: &[u8], second: &[u8]) -> bool
    ensures { result ≡ is_gt (slice_cmp nat_cmp first.now second.now) }
{
    first.cmp(second).is_gt()
}

/// The lesser, in byte order, of the least name so far, if there is one, and this one.
pub fn lesser(alloc: Global, best: Option<Name>, name: &Name) -> Result<Option<Name>, Memory>
    ensures { IfOk result (λ found. found ≡ Some (lesser_of best name.now)) }
{
    match best {
        None => Ok(Some(Name::from_bytes(alloc, name.as_bytes())?)),
        Some(least) => {
            if is_after(least.as_bytes(), name.as_bytes()) {
                Ok(Some(Name::from_bytes(alloc, name.as_bytes())?))
            } else {
                Ok(Some(least))
            }
        }
    }
}
