ghost use Rattle.std.specs.Prelude.{◌≡◌, ◌<◌, IfOk, Some, length, slice_get};
ghost use Rattle.kit_check.specs.Shares.{FindsAmong, FindsFirst, IsAny, IsDealtFault, IsDealtTo, IsEarlier, IsTrial};
ghost use Rattle.kit_check.specs.Windows.{all_windows};

use crate::judge::{Trial, window_fault};
use crate::maker::Maker;
use crate::window::{Window, window_at};
use or_geom::Memory;
use std::alloc::Global;
use std::thread::{Threads, map_indices};

/// A window with which something is wrong: its index, and the number of its first fault.
#[derive(Clone, Copy, Debug)]
pub struct Found {
    pub index: usize,
    pub fault: u32,
}

/// The first fault of the window at the index, if the window is this worker's: they are dealt out one by one.
fn dealt_fault<R: Threads + Sync, M: Maker>(
    rt: &R,
    alloc: Global,
    trial: &Trial<M>,
    windows: &[Window],
    index: usize,
    worker: usize,
    workers: usize,
) -> Result<Option<u32>, Memory>
    requires trial { IsTrial (M.answers trial.now.maker.now) trial.now.kit.now trial.now.leaves.now trial.now.name.now }
    requires windows { windows.now ≡ all_windows }
    requires inside { index < length windows.now }
    requires some { 0 < workers }
    ensures { IfOk result (IsDealtFault workers worker (M.answers trial.now.maker.now) trial.now.kit.now
        trial.now.name.now index) }
{
    if index % workers != worker {
        return Ok(None);
    }
    window_fault(rt, alloc, trial, &window_at(windows, index))
}

/// The first window with which something is wrong, of those that a worker has.
fn first_of_worker<R: Threads + Sync, M: Maker>(
    rt: &R,
    alloc: Global,
    trial: &Trial<M>,
    windows: &[Window],
    worker: usize,
    workers: usize,
) -> Result<Option<Found>, Memory>
    requires trial { IsTrial (M.answers trial.now.maker.now) trial.now.kit.now trial.now.leaves.now trial.now.name.now }
    requires windows { windows.now ≡ all_windows }
    requires some { 0 < workers }
    ensures { IfOk result (FindsAmong (IsDealtTo workers worker) (M.answers trial.now.maker.now) trial.now.kit.now
        trial.now.name.now) }
{
    for index in 0..windows.len() {
        if let Some(fault) = dealt_fault(rt, alloc, trial, windows, index, worker, workers)? {
            return Ok(Some(Found { index, fault }));
        }
    }
    Ok(None)
}

/// The one of the two that comes first.
fn earlier(a: Option<Found>, b: Option<Found>) -> Option<Found>
    ensures { IsEarlier a b result }
{
    match (a, b) {
        (Some(a), Some(b)) => { if b.index < a.index { Some(b) } else { Some(a) } }
        (Some(a), None) => Some(a),
        (None, found) => found,
    }
}

/// What the worker of this number found.
pub fn found_by<T: Copy>(found: &[Result<T, Memory>], worker: usize) -> Result<T, Memory>
    requires { worker < length found.now }
    ensures { slice_get found.now worker ≡ Some result }
{
    found[worker]
}

/// The one that comes first of those that the workers found. A worker that found no memory makes the whole answer that.
fn first_of_all(found: &[Result<Option<Found>, Memory>]) -> Result<Option<Found>, Memory>
    ensures { IfOk result (FindsFirst found.now (length found.now)) }
{
    let mut first = None;
    for worker in 0..found.len() {
        first = earlier(first, found_by(found, worker)?);
    }
    Ok(first)
}

/// The first window with which something is wrong, by as many workers.
pub fn first_weak<R: Threads + Sync, M: Maker + Sync>(
    rt: &R,
    alloc: Global,
    trial: &Trial<M>,
    windows: &[Window],
    workers: usize,
) -> Result<Option<Found>, Memory>
    requires trial { IsTrial (M.answers trial.now.maker.now) trial.now.kit.now trial.now.leaves.now trial.now.name.now }
    requires windows { windows.now ≡ all_windows }
    requires some { 0 < workers }
    ensures { IfOk result (FindsAmong IsAny (M.answers trial.now.maker.now) trial.now.kit.now trial.now.name.now) }
{
    let found = map_indices(
        rt,
        alloc,
        workers,
        &|worker: usize| -> Result<Option<Found>, Memory>
            requires { (0 < workers) × (windows.now ≡ all_windows)
                × IsTrial (M.answers trial.now.maker.now) trial.now.kit.now trial.now.leaves.now trial.now.name.now }
            ensures { IfOk result (FindsAmong (IsDealtTo workers worker)
                (M.answers trial.entry.now.maker.now) trial.entry.now.kit.now trial.entry.now.name.now) }
        { first_of_worker(rt, alloc, trial, windows, worker, workers) },
    )?;
    first_of_all(&found)
}
