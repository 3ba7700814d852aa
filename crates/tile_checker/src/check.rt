ghost use Rattle.std.specs.Prelude.{◌≡◌, ◌≤◌, ◌<◌, IfOk};
ghost use Rattle.std.specs.List.Sorted.{IsStrictlySortedBy};
ghost use Rattle.or_geom.specs.ShapeOrder.{shape_order};
ghost use Rattle.or_geom.specs.Reachable.{AreReachable};
ghost use Rattle.tech_rules.specs.Facts.{IsTech};
ghost use Rattle.tile_checker.specs.RuleReport.{IsReport};
ghost use Rattle.tile_checker.specs.Share.{IsShare};
ghost use Rattle.tile_checker.specs.Tiles.{AreTiles};

use crate::gate::Gate;
use crate::share::share_of;
use crate::tiles::tiles_of;
use crate::union::union_of;
use crate::violation::Violation;
use cell_hierarchy::Flat;
use or_geom::{Memory, Rect, sort_distinct};
use shape_bins::Bins;
use std::alloc::Global;
use std::thread::{Threads, map_indices};
use tech_rules::Tech;

/// The report by one worker, whose list needs no other.
fn report_alone(
    alloc: Global,
    tech: &Tech,
    bins: &Bins,
    tiles: &[Rect],
) -> Result<Vec<Violation>, Memory>
    requires tech { IsTech tech.now }
    requires rises { IsStrictlySortedBy shape_order bins.now }
    requires reach { AreReachable bins.now }
    requires tiles { AreTiles bins.now tiles.now }
    ensures { IfOk result (λ list. IsReport tech.now.rules bins.now list.items) }
{
    let mut list = share_of(alloc, tech, bins, tiles, 0, 1)?;
    sort_distinct(&mut list);
    Ok(list)
}

/// The report by several workers, each of which looks at some of the tiles.
fn report_by<G: Gate + Sync, R: Threads + Sync>(
    rt: &R,
    alloc: Global,
    gate: &G,
    tech: &Tech,
    bins: &Bins,
    tiles: &[Rect],
    count: usize,
) -> Result<Vec<Violation>, Memory>
    requires tech { IsTech tech.now }
    requires rises { IsStrictlySortedBy shape_order bins.now }
    requires reach { AreReachable bins.now }
    requires tiles { AreTiles bins.now tiles.now }
    requires some { 0 < count }
    requires few { count ≤ 64 }
    ensures { IfOk result (λ list. IsReport tech.now.rules bins.now list.items) }
{
    let lists = map_indices(
        rt,
        alloc,
        count,
        &|worker: usize| -> Result<Vec<Violation>, Memory>
            requires { (worker < 256) × (0 < count) × IsTech tech.now × IsStrictlySortedBy shape_order bins.now
                × AreReachable bins.now × AreTiles bins.now tiles.now }
            ensures { IfOk result (λ list. IsShare tech.entry.now.rules bins.entry.now tiles.entry.now count worker
                list.items) }
        {
            gate.enter(worker as u8);
            share_of(alloc, tech, bins, tiles, worker, count)
        },
    )?;
    union_of(alloc, &lists)
}

/// What breaks the technology's rules: in the order of rules, first and second shapes, each once, whatever the number
/// of workers, which is 1 to 64. Coordinates are in nanometres.
///
/// `Memory`: no list could be made.
pub fn check_all<G: Gate + Sync, R: Threads + Sync>(
    rt: &R,
    alloc: Global,
    gate: &G,
    tech: &Tech,
    flat: &Flat,
    bins: &Bins,
    workers: u8,
) -> Result<Vec<Violation>, Memory>
    requires tech { IsTech tech.now }
    requires rises { IsStrictlySortedBy shape_order flat.now.shapes.now }
    requires reach { AreReachable flat.now.shapes.now }
    requires bins { bins.now ≡ flat.now.shapes.now }
    requires some { 0 < workers }
    requires few { workers ≤ 64 }
    ensures { IfOk result (λ list. IsReport tech.now.rules flat.now.shapes.now list.items) }
{
    let tiles = tiles_of(alloc, bins)?;
    if workers == 1 {
        gate.enter(0);
        return report_alone(alloc, tech, bins, &tiles);
    }
    report_by(rt, alloc, gate, tech, bins, &tiles, usize::from(workers))
}
