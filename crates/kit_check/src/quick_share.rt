ghost use Rattle.std.specs.Prelude.{◌≡◌, ◌<◌, IfOk, IsTrue, length};
ghost use Rattle.kit_check.specs.Shares.{IsAny, IsDealtTo, IsTrial};
ghost use Rattle.kit_check.specs.Quick.{AllFoundTrue, PassAmong, PassesAt};
ghost use Rattle.kit_check.specs.Windows.{all_windows};

use crate::judge::Trial;
use crate::maker::Maker;
use crate::quick::window_passes;
use crate::share::found_by;
use crate::window::{Window, window_at};
use or_geom::Memory;
use std::alloc::Global;
use std::thread::{Threads, map_indices};

/// Whether the window at the index passes the quick check, if the window is this worker's.
fn dealt_passes<R: Threads + Sync, M: Maker>(
    rt: &R,
    alloc: Global,
    trial: &Trial<M>,
    windows: &[Window],
    index: usize,
    worker: usize,
    workers: usize,
) -> Result<bool, Memory>
    requires trial { IsTrial (M.answers trial.now.maker.now) trial.now.kit.now trial.now.leaves.now trial.now.name.now }
    requires windows { windows.now ≡ all_windows }
    requires inside { index < length windows.now }
    requires some { 0 < workers }
    ensures { IfOk result (λ passes. IsTrue passes → IsDealtTo workers worker index
        → PassesAt (M.answers trial.now.maker.now) trial.now.kit.now trial.now.name.now index) }
{
    if index % workers != worker {
        return Ok(true);
    }
    window_passes(rt, alloc, trial, &window_at(windows, index))
}

/// Whether all windows that a worker has pass the quick check.
fn worker_passes<R: Threads + Sync, M: Maker>(
    rt: &R,
    alloc: Global,
    trial: &Trial<M>,
    windows: &[Window],
    worker: usize,
    workers: usize,
) -> Result<bool, Memory>
    requires trial { IsTrial (M.answers trial.now.maker.now) trial.now.kit.now trial.now.leaves.now trial.now.name.now }
    requires windows { windows.now ≡ all_windows }
    requires some { 0 < workers }
    ensures { IfOk result (λ passes. IsTrue passes → PassAmong (IsDealtTo workers worker)
        (M.answers trial.now.maker.now) trial.now.kit.now trial.now.name.now) }
{
    for index in 0..windows.len() {
        if !dealt_passes(rt, alloc, trial, windows, index, worker, workers)? {
            return Ok(false);
        }
    }
    Ok(true)
}

/// Whether all workers found that their windows pass.
fn all_pass(found: &[Result<bool, Memory>]) -> Result<bool, Memory>
    ensures { IfOk result (λ passes. IsTrue passes → AllFoundTrue found.now (length found.now)) }
{
    for worker in 0..found.len() {
        if !found_by(found, worker)? {
            return Ok(false);
        }
    }
    Ok(true)
}

/// Whether all windows pass the quick check, by as many workers.
pub fn windows_pass<R: Threads + Sync, M: Maker + Sync>(
    rt: &R,
    alloc: Global,
    trial: &Trial<M>,
    windows: &[Window],
    workers: usize,
) -> Result<bool, Memory>
    requires trial { IsTrial (M.answers trial.now.maker.now) trial.now.kit.now trial.now.leaves.now trial.now.name.now }
    requires windows { windows.now ≡ all_windows }
    requires some { 0 < workers }
    ensures { IfOk result (λ passes. IsTrue passes → PassAmong IsAny (M.answers trial.now.maker.now) trial.now.kit.now
        trial.now.name.now) }
{
    let found = map_indices(
        rt,
        alloc,
        workers,
        &|worker: usize| -> Result<bool, Memory>
            requires { (0 < workers) × (windows.now ≡ all_windows)
                × IsTrial (M.answers trial.now.maker.now) trial.now.kit.now trial.now.leaves.now trial.now.name.now }
            ensures { IfOk result (λ passes. IsTrue passes → PassAmong (IsDealtTo workers worker)
                (M.answers trial.entry.now.maker.now) trial.entry.now.kit.now trial.entry.now.name.now) }
        { worker_passes(rt, alloc, trial, windows, worker, workers) },
    )?;
    all_pass(&found)
}
