ghost use Rattle.std.specs.Prelude.{◌≡◌, ◌↔◌, ◌≤◌, ◌^◌, [], Contains, IfOk, IsTrue, length};
ghost use Rattle.std.specs.List.Sorted.{IsStrictlySortedBy};
ghost use Rattle.or_geom.specs.Reachable.{AreReachable};
ghost use Rattle.or_geom.specs.ShapeOrder.{shape_order};
ghost use Rattle.cell_hierarchy.specs.FlatLists.{AreFlatLists};
ghost use Rattle.cell_hierarchy.specs.Plain.{lists_of};
ghost use Rattle.sram_plan.specs.PlanNumbers.{organization};
ghost use Rattle.leaf_tables.specs.Kits.{IsKit};
ghost use Rattle.leaf_nets.specs.Leaves.{AreLooseLeaves};
ghost use Rattle.tile_checker.specs.RuleReport.{IsReport};
ghost use Rattle.kit_check.specs.Judged.{MatchIn};
ghost use Rattle.kit_check.specs.Makers.{HasFlatRows, IsGoodMacro};
ghost use Rattle.kit_check.specs.Shares.{IsTrial};
ghost use Rattle.kit_check.specs.Quick.{AreNetsLookedAt, AreRulesLookedAt, IsPassingMacro, IsPassingWindow};
ghost use Rattle.kit_check.specs.Windows.{all_windows};

use crate::judge::{Trial, breaks_rule, differs, flat_of, touches_outside};
use crate::maker::Maker;
use crate::window::{Window, plan_of};
use bumpalo::Bump;
use cell_hierarchy::{Flat, FlattenFault};
use gds_library::Library;
use leaf_tables::PartFault;
use netlist::Deck;
use or_geom::Memory;
use shape_bins::{Bins, index};
use sram_plan::Plan;
use std::alloc::Global;
use std::thread::Threads;

/// A macro that was made of a plan.
#[derive(Clone, Copy)]
struct MadeMacro<'a> {
    plan: &'a Plan,
    lib: &'a Library,
    deck: &'a Deck,
}

/// The quick check looks at memories of at most so many bits. That wider ones are in order follows from them where the
/// macros are those that a build assembles.
const MOST_BITS: u32 = 4;

/// Where bits are written apart from each other, rules are looked at in memories of so many bits alone.
const BITS_APART: u32 = 3;

/// Whether the quick check looks at the nets of a plan's memory.
fn looks_at_nets(plan: &Plan) -> bool
    ensures { IsTrue result ↔ AreNetsLookedAt (organization plan.now) }
{
    plan.word_size <= MOST_BITS
}

/// Whether the quick check looks at the rules of a plan's memory.
fn looks_at_rules(plan: &Plan) -> bool
    ensures { IsTrue result ↔ AreRulesLookedAt (organization plan.now) }
{
    plan.word_size <= MOST_BITS && (plan.masks == 0 || plan.word_size == BITS_APART)
}

/// Whether a flat macro keeps the rules, if they are looked at.
fn keeps_rules<'b, R: Threads + Sync, M: Maker>(
    rt: &R,
    alloc: Global,
    trial: &Trial<M>,
    plan: &Plan,
    flat: &Flat<'b>,
    bins: &Bins<'b>,
) -> Result<bool, Memory>
    requires kit { IsKit trial.now.kit.now }
    requires rises { IsStrictlySortedBy shape_order flat.now.shapes.now }
    requires bins { bins.now ≡ flat.now.shapes.now }
    requires reach { AreReachable flat.now.shapes.now }
    ensures { IfOk result (λ kept. IsTrue kept → AreRulesLookedAt (organization plan.now)
        → IsReport trial.now.kit.now.tech.rules flat.now.shapes.now []) }
{
    if !looks_at_rules(plan) {
        return Ok(true);
    }
    let broken = breaks_rule(rt, alloc, trial.kit, flat, bins)?;
    Ok(!broken)
}

/// Whether a flat macro's labels are joined as its netlist says, if nets are looked at.
fn is_matching<'b, R: Threads + Sync, M: Maker>(
    rt: &R,
    alloc: Global,
    trial: &Trial<M>,
    made: MadeMacro<'_>,
    flat: &Flat<'b>,
    bins: &Bins<'b>,
) -> Result<bool, Memory>
    requires rises { IsStrictlySortedBy shape_order flat.now.shapes.now }
    requires bins { bins.now ≡ flat.now.shapes.now }
    requires few { length flat.now.labels.now ≤ 2 ^ 22 }
    requires rows { HasFlatRows trial.now.kit.now trial.now.name.now made.deck.now }
    ensures { IfOk result (λ matching. IsTrue matching → AreNetsLookedAt (organization made.entry.plan.now)
        → MatchIn trial.now.kit.now trial.now.name.now made.entry.deck.now (lists_of flat.now)) }
{
    if !looks_at_nets(made.plan) {
        return Ok(true);
    }
    let differs = differs(rt, alloc, trial.kit, trial.name, made.deck, flat, bins)?;
    Ok(!differs)
}

/// Whether a flat macro passes the quick check: what is looked at is in order, and no loose shape of a leaf cell
/// touches a shape outside of its instance.
fn flat_passes<'b, R: Threads + Sync, M: Maker>(
    rt: &R,
    alloc: Global,
    bump: &'b Bump,
    trial: &Trial<M>,
    made: MadeMacro<'_>,
    flat: &Flat<'b>,
) -> Result<bool, Memory>
    requires kit { IsKit trial.now.kit.now }
    requires made { IsGoodMacro trial.now.kit.now trial.now.name.now made.lib.now made.deck.now }
    requires leaves { AreLooseLeaves trial.now.kit.now trial.now.leaves.now }
    requires flat { AreFlatLists trial.now.kit.now.tech.layers made.lib.now.structs trial.now.name.now
        (lists_of flat.now) }
    requires rises { IsStrictlySortedBy shape_order flat.now.shapes.now }
    requires reach { AreReachable flat.now.shapes.now }
    requires few { length flat.now.shapes.now ≤ 16777216 }
    requires few_labels { length flat.now.labels.now ≤ 2 ^ 22 }
    ensures { IfOk result (λ passes. IsTrue passes → IsPassingMacro trial.now.kit.now trial.now.name.now
        (organization made.entry.plan.now) made.entry.lib.now made.entry.deck.now) }
{
    let bins = index(alloc, bump, flat)?;
    if !keeps_rules(rt, alloc, trial, made.plan, flat, &bins)? {
        return Ok(false);
    }
    if !is_matching(rt, alloc, trial, made, flat, &bins)? {
        return Ok(false);
    }
    let touches = touches_outside(alloc, bump, trial, made.lib, flat, &bins)?;
    Ok(!touches)
}

/// Whether a made macro passes the quick check.
fn macro_passes<R: Threads + Sync, M: Maker>(
    rt: &R,
    alloc: Global,
    trial: &Trial<M>,
    made: MadeMacro<'_>,
) -> Result<bool, Memory>
    requires kit { IsKit trial.now.kit.now }
    requires made { IsGoodMacro trial.now.kit.now trial.now.name.now made.lib.now made.deck.now }
    requires leaves { AreLooseLeaves trial.now.kit.now trial.now.leaves.now }
    ensures { IfOk result (λ passes. IsTrue passes → IsPassingMacro trial.now.kit.now trial.now.name.now
        (organization made.entry.plan.now) made.entry.lib.now made.entry.deck.now) }
{
    let bump = Bump::new(alloc);
    match flat_of(alloc, &bump, trial.kit, trial.name, made.lib) {
        Ok(flat) => flat_passes(rt, alloc, &bump, trial, made, &flat),
        Err(FlattenFault::Memory) => Err(Memory),
        Err(_) => Ok(false),
    }
}

/// Whether a window passes the quick check. One whose cells are too wide for its columns does. That it answers true
/// wherever it might isn't claimed: who gets false looks at all windows whole.
pub fn window_passes<R: Threads + Sync, M: Maker>(
    rt: &R,
    alloc: Global,
    trial: &Trial<M>,
    window: &Window,
) -> Result<bool, Memory>
    requires trial { IsTrial (M.answers trial.now.maker.now) trial.now.kit.now trial.now.leaves.now trial.now.name.now }
    requires window { Contains all_windows window.now }
    ensures { IfOk result (λ passes. IsTrue passes → IsPassingWindow (M.answers trial.now.maker.now) trial.now.kit.now
        trial.now.name.now window.now) }
{
    let plan = plan_of(window);
    match trial.maker.make(alloc, trial.kit, &plan, trial.name) {
        Ok((lib, deck)) => {
            let made = MadeMacro {
                plan: &plan,
                lib: &lib,
                deck: &deck,
            };
            macro_passes(rt, alloc, trial, made)
        }
        Err(PartFault::SliceTooNarrow { .. }) => Ok(true),
        Err(PartFault::Memory) => Err(Memory),
        Err(_) => Ok(false),
    }
}
