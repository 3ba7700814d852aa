ghost use Rattle.std.specs.Prelude.{◌≡◌, ◌++◌, IfOk};

use or_geom::{Items, Memory};
use std::alloc::Global;

/// The first text and then the second.
pub fn concatenated(alloc: Global, first: &[u8], second: &[u8]) -> Result<Items<u8>, Memory>
    ensures { IfOk result (λ whole. whole ≡ first.now ++ second.now) }
{
    let mut whole = Vec::from_slice(alloc, first)?;
    whole.extend_from_slice(second)?;
    Ok(Items::from_vec(whole))
}
