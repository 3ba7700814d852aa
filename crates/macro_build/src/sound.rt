ghost use Rattle.std.specs.Prelude.{◌≡◌, ◌<◌, ◌≤◌, ◌^◌, [], length, map, IfOk, IfErr, MatchResult, OnOk};
ghost use Rattle.std.specs.List.Sorted.{IsStrictlySortedBy};
ghost use Rattle.or_geom.specs.Reachable.{AreReachable};
ghost use Rattle.or_geom.specs.ShapeOrder.{shape_order};
ghost use Rattle.cell_hierarchy.specs.FlatLists.{AreFlatLists};
ghost use Rattle.cell_hierarchy.specs.Plain.{lists_of, plain_label};
ghost use Rattle.tech_rules.specs.Facts.{IsTech};
ghost use Rattle.tile_checker.specs.RuleReport.{IsReport};
ghost use Rattle.leaf_tables.specs.Kits.{IsKit};
ghost use Rattle.net_extractor.specs.Extraction.{AreNets};
ghost use Rattle.net_extractor.specs.PlainNets.{plain_net};
ghost use Rattle.spice_netlist.specs.Faults.{AreFlatRows};
ghost use Rattle.port_lists.specs.Held.{held_of};
ghost use Rattle.sram_netlist.specs.Numbers.{ArePlanNumbers};
ghost use Rattle.sram_plan.specs.PlanNumbers.{numbers_of};
ghost use Rattle.sram_macro.specs.Leaves.{leaf_names};
ghost use Rattle.sram_macro.specs.Macro.{IsMacro};
ghost use Rattle.macro_build.specs.Built.{IsBuildFault, IsSoundMacro, all_subckts};
ghost use Rattle.macro_build.specs.Checks.{AreNetsWithinRules};

use crate::built::BuildFault;
use crate::order::Order;
use crate::rows::rows_of;
use bumpalo::Bump;
use cell_hierarchy::{Flat, Sorter, flatten_by};
use net_extractor::Nets;
use netlist::Rows;
use or_geom::Memory;
use parallel_nets::{compare_by, extract_by};
use parallel_sort::WorkerSorter;
use shape_bins::{Bins, index_by};
use sram_macro::Macro;
use std::alloc::Global;
use std::thread::Threads;
use tile_checker::{Gate, first_violation};
use worker_join::try_join_by;

/// The flat shapes and labels of the macro, in the arena.
fn flat_of<'b, S: Sorter>(
    sorter: &S,
    alloc: Global,
    bump: &'b Bump,
    order: &Order,
    made: &Macro,
) -> Result<Flat<'b>, BuildFault>
    requires ready { S.ready sorter.now }
    requires kit { IsKit order.now.kit.now }
    requires made { IsMacro order.now.kit.now order.now.plan.now (held_of order.now.contents)
        order.now.name.now made.now }
    ensures flat { IfOk result (λ flat. AreFlatLists order.now.kit.now.tech.layers made.now.lib.structs
        order.now.name.now (lists_of flat)) }
    ensures rises { IfOk result (λ flat. IsStrictlySortedBy shape_order flat.shapes.now) }
    ensures reach { IfOk result (λ flat. AreReachable flat.shapes.now) }
    ensures few { IfOk result (λ flat. length flat.shapes.now ≤ 16777216) }
    ensures few_labels { IfOk result (λ flat. length flat.labels.now ≤ 2 ^ 22) }
    ensures fault { IfErr result (IsBuildFault order.now.kit.now order.now.plan.now (held_of order.now.contents)
        order.now.name.now) }
{
    let flattened = flatten_by(sorter, alloc, bump, &made.lib, &order.kit.tech, order.name);
    flattened.map_err(BuildFault::of_flatten)
}

/// Checks that a flat layout breaks no rule.
fn check_rules<'b, R: Threads + Sync, G: Gate + Sync>(
    sorter: &WorkerSorter<'_, R>,
    alloc: Global,
    gate: &G,
    order: &Order,
    _made: &Macro,
    flat: &Flat<'b>,
    bins: &Bins<'b>,
) -> Result<(), BuildFault>
    requires tech { IsTech order.now.kit.now.tech }
    requires made { IsMacro order.now.kit.now order.now.plan.now (held_of order.now.contents)
        order.now.name.now _made.now }
    requires lists { AreFlatLists order.now.kit.now.tech.layers _made.now.lib.structs order.now.name.now
        (lists_of flat.now) }
    requires flat { IsStrictlySortedBy shape_order flat.now.shapes.now × AreReachable flat.now.shapes.now }
    requires bins { bins.now ≡ flat.now.shapes.now }
    requires workers { (0 < sorter.now.workers) × (sorter.now.workers ≤ 64) }
    ensures { MatchResult result (λ _. IsReport order.now.kit.now.tech.rules flat.now.shapes.now [])
        (IsBuildFault order.now.kit.now order.now.plan.now (held_of order.now.contents) order.now.name.now) }
{
    let tech = &order.kit.tech;
    match first_violation(sorter.rt, alloc, gate, tech, flat, bins, sorter.workers)? {
        Some(violation) => Err(BuildFault::RuleBroken(violation)),
        None => Ok(()),
    }
}

/// The nets of a flat layout.
fn flat_nets<'b, R: Threads + Sync>(
    sorter: &WorkerSorter<'_, R>,
    alloc: Global,
    order: &Order,
    flat: &Flat<'b>,
    bins: &Bins<'b>,
) -> Result<Nets<'b>, BuildFault>
    requires rises { IsStrictlySortedBy shape_order flat.now.shapes.now }
    requires bins { bins.now ≡ flat.now.shapes.now }
    requires few { length flat.now.labels.now ≤ 2 ^ 22 }
    ensures { MatchResult result (λ nets. AreNets order.now.kit.now.tech flat.now.shapes.now
        (map plain_label flat.now.labels.now) (map plain_net nets.labels))
        (IsBuildFault order.now.kit.now order.now.plan.now (held_of order.now.contents) order.now.name.now) }
{
    let tech = &order.kit.tech;
    Ok(extract_by(sorter.rt, alloc, tech, flat, bins, sorter.workers)?)
}

/// The nets of a flat layout that breaks no rule. With more than one worker they are extracted while the rules are
/// checked.
fn nets_within_rules<'b, R: Threads + Sync, G: Gate + Sync>(
    sorter: &WorkerSorter<'_, R>,
    alloc: Global,
    gate: &G,
    order: &Order,
    made: &Macro,
    flat: &Flat<'b>,
    bins: &Bins<'b>,
) -> Result<Nets<'b>, BuildFault>
    requires tech { IsTech order.now.kit.now.tech }
    requires made { IsMacro order.now.kit.now order.now.plan.now (held_of order.now.contents)
        order.now.name.now made.now }
    requires lists { AreFlatLists order.now.kit.now.tech.layers made.now.lib.structs order.now.name.now
        (lists_of flat.now) }
    requires flat { IsStrictlySortedBy shape_order flat.now.shapes.now × AreReachable flat.now.shapes.now
        × (length flat.now.labels.now ≤ 2 ^ 22) }
    requires bins { bins.now ≡ flat.now.shapes.now }
    requires workers { (0 < sorter.now.workers) × (sorter.now.workers ≤ 64) }
    ensures { MatchResult result (λ nets. AreNetsWithinRules order.now.kit.now order.now.plan.now
        (held_of order.now.contents) order.now.name.now made.now (map plain_net nets.labels))
        (IsBuildFault order.now.kit.now order.now.plan.now (held_of order.now.contents) order.now.name.now) }
{
    let rules = || -> Result<(), BuildFault>
        requires { IsTech order.now.kit.now.tech × IsMacro order.now.kit.now order.now.plan.now
            (held_of order.now.contents) order.now.name.now made.now
            × AreFlatLists order.now.kit.now.tech.layers made.now.lib.structs order.now.name.now (lists_of flat.now)
            × IsStrictlySortedBy shape_order flat.now.shapes.now × AreReachable flat.now.shapes.now
            × (bins.now ≡ flat.now.shapes.now) × (0 < sorter.now.workers) × (sorter.now.workers ≤ 64) }
        ensures { MatchResult result
            (λ _. IsReport order.entry.now.kit.now.tech.rules flat.entry.now.shapes.now [])
            (IsBuildFault order.entry.now.kit.now order.entry.now.plan.now (held_of order.entry.now.contents)
            order.entry.now.name.now) }
    { check_rules(sorter, alloc, gate, order, made, flat, bins) };
    let nets = || -> Result<Nets, BuildFault>
        requires { IsStrictlySortedBy shape_order flat.now.shapes.now × (bins.now ≡ flat.now.shapes.now)
            × (length flat.now.labels.now ≤ 2 ^ 22) }
        ensures { MatchResult result (λ nets. AreNets order.entry.now.kit.now.tech flat.entry.now.shapes.now
            (map plain_label flat.entry.now.labels.now) (map plain_net nets.labels))
            (IsBuildFault order.entry.now.kit.now order.entry.now.plan.now (held_of order.entry.now.contents)
            order.entry.now.name.now) }
    { flat_nets(sorter, alloc, order, flat, bins) };
    let (_, nets) = try_join_by(sorter.rt, sorter.workers, rules, nets)?;
    Ok(nets)
}

/// The nets of the macro's layout, which breaks no rule.
fn layout_nets<'b, R: Threads + Sync, G: Gate + Sync>(
    sorter: &WorkerSorter<'_, R>,
    alloc: Global,
    gate: &G,
    bump: &'b Bump,
    order: &Order,
    made: &Macro,
) -> Result<Nets<'b>, BuildFault>
    requires kit { IsKit order.now.kit.now }
    requires made { IsMacro order.now.kit.now order.now.plan.now (held_of order.now.contents)
        order.now.name.now made.now }
    requires workers { (0 < sorter.now.workers) × (sorter.now.workers ≤ 64) }
    ensures { MatchResult result (λ nets. AreNetsWithinRules order.now.kit.now order.now.plan.now
        (held_of order.now.contents) order.now.name.now made.now (map plain_net nets.labels))
        (IsBuildFault order.now.kit.now order.now.plan.now (held_of order.now.contents) order.now.name.now) }
{
    let flat = flat_of(sorter, alloc, bump, order, made)?;
    let bins = index_by(sorter, alloc, bump, &flat)?;
    nets_within_rules(sorter, alloc, gate, order, made, &flat, &bins)
}

/// The rows of the macro's netlist, and the nets of its layout, which breaks no rule. With more than one worker the
/// rows are made beside all that is done with the layout.
fn rows_and_nets<'b, R: Threads + Sync, G: Gate + Sync>(
    sorter: &WorkerSorter<'_, R>,
    alloc: Global,
    gate: &G,
    bump: &'b Bump,
    order: &Order,
    made: &Macro,
) -> Result<(Rows, Nets<'b>), BuildFault>
    requires kit { IsKit order.now.kit.now }
    requires plan { ArePlanNumbers (numbers_of order.now.plan.now) }
    requires made { IsMacro order.now.kit.now order.now.plan.now (held_of order.now.contents)
        order.now.name.now made.now }
    requires workers { (0 < sorter.now.workers) × (sorter.now.workers ≤ 64) }
    ensures rows { IfOk result (λ found. AreFlatRows (all_subckts order.now.kit.now made.now) order.now.name.now
        (leaf_names order.now.kit.now (held_of order.now.contents)) found.0.pins) }
    ensures nets { IfOk result (λ found. AreNetsWithinRules order.now.kit.now order.now.plan.now
        (held_of order.now.contents) order.now.name.now made.now (map plain_net found.1.labels)) }
    ensures fault { IfErr result (IsBuildFault order.now.kit.now order.now.plan.now (held_of order.now.contents)
        order.now.name.now) }
{
    let rows = || -> Result<Rows, BuildFault>
        requires { ArePlanNumbers (numbers_of order.now.plan.now) × IsMacro order.now.kit.now order.now.plan.now
            (held_of order.now.contents) order.now.name.now made.now }
        ensures { MatchResult result (λ rows. AreFlatRows (all_subckts order.entry.now.kit.now made.entry.now)
            order.entry.now.name.now (leaf_names order.entry.now.kit.now (held_of order.entry.now.contents))
            rows.pins) (IsBuildFault order.entry.now.kit.now order.entry.now.plan.now
            (held_of order.entry.now.contents) order.entry.now.name.now) }
    { Ok(rows_of(alloc, order, made)?) };
    let nets = || -> Result<Nets, BuildFault>
        requires { IsKit order.now.kit.now × IsMacro order.now.kit.now order.now.plan.now (held_of order.now.contents)
            order.now.name.now made.now × (0 < sorter.now.workers) × (sorter.now.workers ≤ 64) }
        ensures { MatchResult result (λ nets. AreNetsWithinRules order.entry.now.kit.now order.entry.now.plan.now
            (held_of order.entry.now.contents) order.entry.now.name.now made.entry.now (map plain_net nets.labels))
            (IsBuildFault order.entry.now.kit.now order.entry.now.plan.now (held_of order.entry.now.contents)
            order.entry.now.name.now) }
    { layout_nets(sorter, alloc, gate, bump, order, made) };
    try_join_by(sorter.rt, sorter.workers, rows, nets)
}

/// Checks that the macro breaks no rule, and then that its labels are joined as its netlist says.
pub fn check_sound<R: Threads + Sync, G: Gate + Sync>(
    rt: &R,
    alloc: Global,
    gate: &G,
    order: &Order,
    made: &Macro,
    workers: u8,
) -> Result<(), BuildFault>
    requires kit { IsKit order.now.kit.now }
    requires plan { ArePlanNumbers (numbers_of order.now.plan.now) }
    requires made { IsMacro order.now.kit.now order.now.plan.now (held_of order.now.contents)
        order.now.name.now made.now }
    requires some { 0 < workers }
    requires at_most { workers ≤ 64 }
    ensures sound { OnOk result (IsSoundMacro order.now.kit.now order.now.plan.now (held_of order.now.contents)
        order.now.name.now made.now) }
    ensures fault { IfErr result (IsBuildFault order.now.kit.now order.now.plan.now (held_of order.now.contents)
        order.now.name.now) }
{
    let bump = Bump::new(alloc);
    let sorter = WorkerSorter { rt, workers };
    let (rows, nets) = rows_and_nets(&sorter, alloc, gate, &bump, order, made)?;
    if let Some(difference) = compare_by(rt, alloc, &nets, &rows, workers)? {
        return Err(BuildFault::NetsDiffer(difference));
    }
    Ok(())
}
