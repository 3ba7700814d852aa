ghost use Rattle.std.specs.Prelude.{◌≡◌, IfOk};
ghost use Rattle.device_entries.specs.Entries.{lesser, greater, entry_of};

use or_geom::{Memory, Name};
use std::alloc::Global;

/// A transistor as it is compared: its model, and the nodes of its gate and of its two other terminals, the lesser by
/// its bytes first. Names are in lower case.
#[derive(Debug, Drop)]
pub struct DeviceEntry {
    pub model: Name,
    pub gate: Name,
    pub low: Name,
    pub high: Name,
}

/// The two names, the lesser by its bytes first.
fn in_order<'a>(one: &'a [u8], other: &'a [u8]) -> (&'a [u8], &'a [u8])
    ensures low { result.0.now ≡ lesser one.now other.now }
    ensures high { result.1.now ≡ greater one.now other.now }
{
    if one.cmp(other).is_gt() {
        (other, one)
    } else {
        (one, other)
    }
}

/// The entry of a transistor with these two nodes beside its gate, in either order.
pub fn entry_of(
    alloc: Global,
    model: &[u8],
    gate: &[u8],
    one: &[u8],
    other: &[u8],
) -> Result<DeviceEntry, Memory>
    ensures { IfOk result (λ e. e ≡ entry_of model.now gate.now one.now other.now) }
{
    let (low, high) = in_order(one, other);
    Ok(DeviceEntry {
        model: Name::from_bytes(alloc, model)?,
        gate: Name::from_bytes(alloc, gate)?,
        low: Name::from_bytes(alloc, low)?,
        high: Name::from_bytes(alloc, high)?,
    })
}
