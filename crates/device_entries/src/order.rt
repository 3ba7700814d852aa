ghost use Rattle.std.specs.Prelude.{◌≡◌};
ghost use Rattle.device_entries.specs.EntryOrder.{entry_order};

use crate::entry::DeviceEntry;
use std::cmp::Ordering;

/// The order of entries: by model, gate, lower and higher node, and names by their bytes.
pub fn compare(one: &DeviceEntry, other: &DeviceEntry) -> Ordering
    ensures { result ≡ entry_order one.now other.now }
{
    key_of(one).cmp(&key_of(other))
}

/// What an entry is compared by, the first first.
fn key_of(entry: &DeviceEntry) -> (&[u8], &[u8], &[u8], &[u8])
    ensures model { result.0.now ≡ entry.now.model }
    ensures gate { result.1.now ≡ entry.now.gate }
    ensures low { result.2.now ≡ entry.now.low }
    ensures high { result.3.now ≡ entry.now.high }
{
    (
        entry.model.as_bytes(),
        entry.gate.as_bytes(),
        entry.low.as_bytes(),
        entry.high.as_bytes(),
    )
}
