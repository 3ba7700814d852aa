//! Two computations side by side.
#![tactic(auto)]

ghost use Rattle.std.specs.Prelude.{◌⊎◌, Ok, Err, IfOk, IfErr};

use std::thread::{Threads, join};

/// What two computations give if both succeed, else an error of one of them. Where there is more than one worker they
/// run in two threads, and of two errors that of the first is kept. Else the first runs in the thread that calls, and
/// the second after it, unless the first has failed.
pub fn try_join_by<
    R: Threads,
    F: FnOnce() -> Result<A, E> + Send,
    G: FnOnce() -> Result<B, E>,
    A: Send + Drop,
    B: Drop,
    E: Send + Drop,
>(rt: &R, workers: u8, first: F, second: G) -> Result<(A, B), E>
    requires { F.pre first × G.pre second }
    ensures both { IfOk result (λ found. F.post first (Ok found.0) × G.post second (Ok found.1)) }
    ensures fault { IfErr result (λ fault. F.post first (Err fault) ⊎ G.post second (Err fault)) }
{
    if workers <= 1 {
        return Ok((first()?, second()?));
    }
    let (one, other) = join(rt, first, second);
    Ok((one?, other?))
}
