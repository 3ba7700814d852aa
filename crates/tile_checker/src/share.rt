ghost use Rattle.std.specs.Prelude.{◌↔◌, ◌≡◌, ◌<◌, ◌≤◌, ◌%◌, IsTrue, IfOk, OnOk, All, length};
ghost use Rattle.std.specs.List.Sorted.{IsStrictlySortedBy};
ghost use Rattle.or_geom.specs.Adds.{Adds};
ghost use Rattle.or_geom.specs.ShapeOrder.{shape_order};
ghost use Rattle.or_geom.specs.Distance.{IsReachable};
ghost use Rattle.or_geom.specs.Reachable.{AreReachable};
ghost use Rattle.tech_rules.specs.Facts.{IsTech};
ghost use Rattle.tile_checker.specs.Minimum.{HasMinimum};
ghost use Rattle.tile_checker.specs.Tiles.{IsFoundIn, AreTiles};
ghost use Rattle.tile_checker.specs.Share.{IsShare};
ghost use Rattle.tile_checker.specs.Seen.{AreTrueNotes};

use crate::in_tile::add_of_rule;
use crate::notes::Notes;
use crate::violation::Violation;
use or_geom::{Memory, Rect};
use shape_bins::Bins;
use std::alloc::Global;
use tech_rules::{Rule, Tech};

/// Adds what breaks one of the rules and the tile owns.
fn add_of_tile(
    bins: &Bins,
    rules: &[Rule],
    tile: Rect,
    firsts: &mut Vec<usize>,
    notes: &mut Notes,
) -> Result<(), Memory>
    requires minimums { All HasMinimum rules.now }
    requires few { length rules.now ≤ 256 }
    requires rises { IsStrictlySortedBy shape_order bins.now }
    requires reach { AreReachable bins.now }
    requires tile { IsReachable tile }
    requires seen { AreTrueNotes bins.now notes.old }
    ensures seen { AreTrueNotes bins.now notes.new }
    ensures adds { OnOk result (Adds notes.old.found.items notes.new.found.items (IsFoundIn rules.now bins.now tile)) }
{
    for number in 0..rules.len() {
        add_of_rule(bins, number as u32, &rules[number], tile, firsts, notes)?;
    }
    Ok(())
}

/// Whether the worker has the tile: tiles are dealt out one by one.
pub fn is_own(index: usize, worker: usize, workers: usize) -> bool
    requires { 0 < workers }
    ensures { IsTrue result ↔ (index % workers ≡ worker) }
{
    index % workers == worker
}

/// Of the report, what the tiles of the worker own.
pub fn share_of(
    alloc: Global,
    tech: &Tech,
    bins: &Bins,
    tiles: &[Rect],
    worker: usize,
    workers: usize,
) -> Result<Vec<Violation>, Memory>
    requires tech { IsTech tech.now }
    requires rises { IsStrictlySortedBy shape_order bins.now }
    requires reach { AreReachable bins.now }
    requires tiles { AreTiles bins.now tiles.now }
    requires some { 0 < workers }
    ensures { IfOk result (λ list. IsShare tech.now.rules bins.now tiles.now workers worker list.items) }
{
    let rules = tech.rules.as_slice();
    let mut firsts = Vec::new(alloc);
    let mut notes = Notes::new(alloc);
    for index in 0..tiles.len() {
        if !is_own(index, worker, workers) {
            continue;
        }
        add_of_tile(bins, rules, tiles[index], &mut firsts, &mut notes)?;
    }
    Ok(notes.found)
}
