ghost use Rattle.std.specs.Prelude.{◌≡◌, ◌≤◌, ◌<◌, IfOk};
ghost use Rattle.std.specs.List.Sorted.{IsStrictlySortedBy};
ghost use Rattle.or_geom.specs.Reachable.{AreReachable};
ghost use Rattle.or_geom.specs.ShapeOrder.{shape_order};
ghost use Rattle.tech_rules.specs.Facts.{IsTech};
ghost use Rattle.tile_checker.specs.Earliest.{HasFirst, IsEarliestOf, IsEarliestWith, IsFirstOfAll, IsShareFound};
ghost use Rattle.tile_checker.specs.RuleReport.{IsFirstOfReport};
ghost use Rattle.tile_checker.specs.Share.{IsOwn};
ghost use Rattle.tile_checker.specs.Tiles.{AreTiles};

use crate::earliest::earlier;
use crate::first_share::first_of_share;
use crate::gate::Gate;
use crate::tiles::tiles_of;
use crate::violation::Violation;
use cell_hierarchy::Flat;
use or_geom::{Memory, Rect};
use shape_bins::Bins;
use std::alloc::Global;
use std::thread::{Threads, map_indices};
use tech_rules::Tech;

/// The first of what is kept and of what a worker found. One who found no memory is answered.
fn first_with(
    kept: Option<Violation>,
    found: &Result<Option<Violation>, Memory>,
) -> Result<Option<Violation>, Memory>
    ensures first { IfOk result (IsEarliestWith kept (HasFirst found.now)) }
    ensures there { IfOk result (λ least. IsShareFound found.now) }
{
    match found {
        Ok(own) => Ok(earlier(kept, *own)),
        Err(memory) => Err(*memory),
    }
}

/// The first of what the workers found. One who found no memory makes the whole answer that.
fn first_of_all(results: &[Result<Option<Violation>, Memory>]) -> Result<Option<Violation>, Memory>
    ensures { IfOk result (IsFirstOfAll results.now) }
{
    let mut least = None;
    for found in results {
        least = first_with(least, found)?;
    }
    Ok(least)
}

/// The first violation by one worker.
fn first_alone(
    alloc: Global,
    tech: &Tech,
    bins: &Bins,
    tiles: &[Rect],
) -> Result<Option<Violation>, Memory>
    requires tech { IsTech tech.now }
    requires rises { IsStrictlySortedBy shape_order bins.now }
    requires reach { AreReachable bins.now }
    requires tiles { AreTiles bins.now tiles.now }
    ensures { IfOk result (IsFirstOfReport tech.now.rules bins.now) }
{
    first_of_share(alloc, tech, bins, tiles, 0, 1)
}

/// The first violation by several workers, each of which looks at some of the tiles.
fn first_by<G: Gate + Sync, R: Threads + Sync>(
    rt: &R,
    alloc: Global,
    gate: &G,
    tech: &Tech,
    bins: &Bins,
    tiles: &[Rect],
    count: usize,
) -> Result<Option<Violation>, Memory>
    requires tech { IsTech tech.now }
    requires rises { IsStrictlySortedBy shape_order bins.now }
    requires reach { AreReachable bins.now }
    requires tiles { AreTiles bins.now tiles.now }
    requires some { 0 < count }
    requires few { count ≤ 64 }
    ensures { IfOk result (IsFirstOfReport tech.now.rules bins.now) }
{
    let results = map_indices(
        rt,
        alloc,
        count,
        &|worker: usize| -> Result<Option<Violation>, Memory>
            requires { (worker < 256) × (0 < count) × IsTech tech.now × IsStrictlySortedBy shape_order bins.now
                × AreReachable bins.now × AreTiles bins.now tiles.now }
            ensures { IfOk result (IsEarliestOf
                (IsOwn tech.entry.now.rules bins.entry.now tiles.entry.now count worker)) }
        {
            gate.enter(worker as u8);
            first_of_share(alloc, tech, bins, tiles, worker, count)
        },
    )?;
    first_of_all(&results)
}

/// The first entry of the report that `check_all` gives, none exactly where the report is empty, whatever the number of
/// workers, which is 1 to 64. Of all violations each worker keeps one alone, and what comes after it isn't looked for,
/// so this needs no memory for the report. Coordinates are in nanometres.
///
/// `Memory`: no list could be made.
pub fn first_violation<G: Gate + Sync, R: Threads + Sync>(
    rt: &R,
    alloc: Global,
    gate: &G,
    tech: &Tech,
    flat: &Flat,
    bins: &Bins,
    workers: u8,
) -> Result<Option<Violation>, Memory>
    requires tech { IsTech tech.now }
    requires rises { IsStrictlySortedBy shape_order flat.now.shapes.now }
    requires reach { AreReachable flat.now.shapes.now }
    requires bins { bins.now ≡ flat.now.shapes.now }
    requires some { 0 < workers }
    requires few { workers ≤ 64 }
    ensures { IfOk result (IsFirstOfReport tech.now.rules flat.now.shapes.now) }
{
    let tiles = tiles_of(alloc, bins)?;
    if workers == 1 {
        gate.enter(0);
        return first_alone(alloc, tech, bins, &tiles);
    }
    first_by(rt, alloc, gate, tech, bins, &tiles, usize::from(workers))
}
