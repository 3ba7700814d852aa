ghost use Rattle.std.specs.Prelude.{◌<◌, ◌≤◌, All, IfOk, length};
ghost use Rattle.std.specs.List.Sorted.{IsStrictlySortedBy};
ghost use Rattle.or_geom.specs.Distance.{IsReachable};
ghost use Rattle.or_geom.specs.Reachable.{AreReachable};
ghost use Rattle.or_geom.specs.ShapeOrder.{shape_order};
ghost use Rattle.tech_rules.specs.Facts.{IsTech};
ghost use Rattle.tile_checker.specs.Earliest.{IsEarliestOf, IsEarliestWith};
ghost use Rattle.tile_checker.specs.Minimum.{HasMinimum};
ghost use Rattle.tile_checker.specs.Share.{IsOwn};
ghost use Rattle.tile_checker.specs.Tiles.{AreTiles, IsFoundIn};
ghost use Rattle.tile_checker.specs.Seen.{AreTrueNotes};

use crate::first_in_tile::first_of_rule;
use crate::notes::Notes;
use crate::share::is_own;
use crate::violation::Violation;
use or_geom::{Memory, Rect};
use shape_bins::Bins;
use std::alloc::Global;
use tech_rules::{Rule, Tech};

/// The first of what is kept and of what breaks one of the rules and the tile owns.
fn first_of_tile(
    bins: &Bins,
    rules: &[Rule],
    tile: Rect,
    places: &mut Vec<usize>,
    notes: &mut Notes,
    kept: Option<Violation>,
) -> Result<Option<Violation>, Memory>
    requires minimums { All HasMinimum rules.now }
    requires few { length rules.now ≤ 256 }
    requires rises { IsStrictlySortedBy shape_order bins.now }
    requires reach { AreReachable bins.now }
    requires tile { IsReachable tile }
    requires seen { AreTrueNotes bins.now notes.old }
    ensures seen { AreTrueNotes bins.now notes.new }
    ensures first { IfOk result (IsEarliestWith kept (IsFoundIn rules.now bins.now tile)) }
{
    let mut least = kept;
    for number in 0..rules.len() {
        least = first_of_rule(
            bins,
            number as u32,
            &rules[number],
            tile,
            places,
            notes,
            least,
        )?;
    }
    Ok(least)
}

/// The first of what the tiles of the worker own.
pub fn first_of_share(
    alloc: Global,
    tech: &Tech,
    bins: &Bins,
    tiles: &[Rect],
    worker: usize,
    workers: usize,
) -> Result<Option<Violation>, Memory>
    requires tech { IsTech tech.now }
    requires rises { IsStrictlySortedBy shape_order bins.now }
    requires reach { AreReachable bins.now }
    requires tiles { AreTiles bins.now tiles.now }
    requires some { 0 < workers }
    ensures { IfOk result (IsEarliestOf (IsOwn tech.now.rules bins.now tiles.now workers worker)) }
{
    let rules = tech.rules.as_slice();
    let mut places = Vec::new(alloc);
    let mut notes = Notes::new(alloc);
    let mut least = None;
    for index in 0..tiles.len() {
        if !is_own(index, worker, workers) {
            continue;
        }
        least = first_of_tile(bins, rules, tiles[index], &mut places, &mut notes, least)?;
    }
    Ok(least)
}
