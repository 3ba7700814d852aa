ghost use Rattle.std.specs.Prelude.{◌≡◌, ◌↔◌, ◌≤◌, ◌<◌, ◌^◌, IfErr, IfOk, IsTrue, MatchBool, MatchOption, Contains, []};
ghost use Rattle.std.specs.Prelude.{length};
ghost use Rattle.std.specs.List.Sorted.{IsStrictlySortedBy};
ghost use Rattle.or_geom.specs.Reachable.{AreReachable};
ghost use Rattle.or_geom.specs.ShapeOrder.{shape_order};
ghost use Rattle.gds_library.specs.Writable.{IsWritable};
ghost use Rattle.cell_hierarchy.specs.FlatLists.{AreFlatLists, IsFault};
ghost use Rattle.cell_hierarchy.specs.Plain.{lists_of};
ghost use Rattle.leaf_tables.specs.Kits.{IsKit};
ghost use Rattle.leaf_nets.specs.Leaves.{AreLooseLeaves};
ghost use Rattle.tile_checker.specs.RuleReport.{IsReport};
ghost use Rattle.kit_check.specs.Good.{HasWindowFault, IsWindowGood};
ghost use Rattle.kit_check.specs.Judged.{DifferIn, HasViolations, IsFaultlessMacro, IsMacroFaultNumber, MatchIn};
ghost use Rattle.kit_check.specs.Judged.{TouchesOutside};
ghost use Rattle.kit_check.specs.Makers.{HasFlatRows, IsGoodMacro};
ghost use Rattle.kit_check.specs.Shares.{IsTrial};
ghost use Rattle.kit_check.specs.Windows.{all_windows};

use crate::maker::Maker;
use crate::rows::rows_of;
use crate::window::{Window, plan_of};
use bumpalo::Bump;
use cell_hierarchy::{Flat, FlattenFault, flatten};
use gds_library::Library;
use leaf_contacts::has_loose_contact;
use leaf_nets::LooseLeaf;
use leaf_tables::{Kit, PartFault};
use netlist::Deck;
use or_geom::{Memory, Name};
use parallel_nets::{compare_by, extract_by};
use shape_bins::{Bins, index};
use std::alloc::Global;
use std::thread::Threads;
use tile_checker::{OpenGate, first_violation};

/// What windows are made of, and by what: the kit with the loose shapes of its leaf cells, the maker, and the name.
#[derive(Clone, Copy)]
pub struct Trial<'a, M: Maker> {
    pub kit: &'a Kit,
    pub leaves: &'a [LooseLeaf],
    pub maker: &'a M,
    pub name: &'a Name,
}

/// The flat shapes and labels of a made macro, in the arena.
pub fn flat_of<'b>(
    alloc: Global,
    bump: &'b Bump,
    kit: &Kit,
    name: &Name,
    lib: &Library,
) -> Result<Flat<'b>, FlattenFault>
    requires kit { IsKit kit.now }
    requires writable { IsWritable lib.now }
    ensures flat { IfOk result (λ flat. AreFlatLists kit.now.tech.layers lib.now.structs name.now (lists_of flat)) }
    ensures rises { IfOk result (λ flat. IsStrictlySortedBy shape_order flat.shapes.now) }
    ensures reach { IfOk result (λ flat. AreReachable flat.shapes.now) }
    ensures few { IfOk result (λ flat. length flat.shapes.now ≤ 16777216) }
    ensures few_labels { IfOk result (λ flat. length flat.labels.now ≤ 2 ^ 22) }
    ensures fault { IfErr result (IsFault kit.now.tech.layers lib.now.structs name.now) }
{
    flatten(alloc, bump, lib, &kit.tech, name)
}

/// Whether a flat macro breaks a rule.
pub fn breaks_rule<'b, R: Threads + Sync>(
    rt: &R,
    alloc: Global,
    kit: &Kit,
    flat: &Flat<'b>,
    bins: &Bins<'b>,
) -> Result<bool, Memory>
    requires kit { IsKit kit.now }
    requires rises { IsStrictlySortedBy shape_order flat.now.shapes.now }
    requires bins { bins.now ≡ flat.now.shapes.now }
    requires reach { AreReachable flat.now.shapes.now }
    ensures { IfOk result (λ broken. MatchBool broken (HasViolations kit.now.tech.rules flat.now.shapes.now)
        (IsReport kit.now.tech.rules flat.now.shapes.now [])) }
{
    let first = first_violation(rt, alloc, &OpenGate, &kit.tech, flat, bins, 1)?;
    Ok(first.is_some())
}

/// Whether a flat macro's labels are joined otherwise than its netlist says.
pub fn differs<'b, R: Threads + Sync>(
    rt: &R,
    alloc: Global,
    kit: &Kit,
    name: &Name,
    made: &Deck,
    flat: &Flat<'b>,
    bins: &Bins<'b>,
) -> Result<bool, Memory>
    requires rises { IsStrictlySortedBy shape_order flat.now.shapes.now }
    requires bins { bins.now ≡ flat.now.shapes.now }
    requires few { length flat.now.labels.now ≤ 2 ^ 22 }
    requires rows { HasFlatRows kit.now name.now made.now }
    ensures { IfOk result (λ found. MatchBool found (DifferIn kit.now name.now made.now (lists_of flat.now))
        (MatchIn kit.now name.now made.now (lists_of flat.now))) }
{
    let nets = extract_by(rt, alloc, &kit.tech, flat, bins, 1)?;
    let rows = rows_of(alloc, kit, name, made)?;
    Ok(compare_by(rt, alloc, &nets, &rows, 1)?.is_some())
}

/// Whether a loose shape of a leaf cell touches a shape outside of its instance.
pub fn touches_outside<'b, M: Maker>(
    alloc: Global,
    bump: &'b Bump,
    trial: &Trial<M>,
    lib: &Library,
    flat: &Flat<'b>,
    bins: &Bins<'b>,
) -> Result<bool, Memory>
    requires kit { IsKit trial.now.kit.now }
    requires writable { IsWritable lib.now }
    requires flat { AreFlatLists trial.now.kit.now.tech.layers lib.now.structs trial.now.name.now (lists_of flat.now) }
    requires bins { bins.now ≡ flat.now.shapes.now }
    requires leaves { AreLooseLeaves trial.now.kit.now trial.now.leaves.now }
    ensures { IfOk result (λ found. IsTrue found
        ↔ TouchesOutside trial.now.kit.now trial.now.name.now lib.now.structs) }
{
    let tech = &trial.kit.tech;
    has_loose_contact(alloc, bump, tech, lib, trial.name, bins, trial.leaves)
}

/// The number of the first fault of a flat macro.
fn flat_fault<'b, R: Threads + Sync, M: Maker>(
    rt: &R,
    alloc: Global,
    bump: &'b Bump,
    trial: &Trial<M>,
    lib: &Library,
    deck: &Deck,
    flat: &Flat<'b>,
) -> Result<Option<u32>, Memory>
    requires kit { IsKit trial.now.kit.now }
    requires made { IsGoodMacro trial.now.kit.now trial.now.name.now lib.now deck.now }
    requires leaves { AreLooseLeaves trial.now.kit.now trial.now.leaves.now }
    requires flat { AreFlatLists trial.now.kit.now.tech.layers lib.now.structs trial.now.name.now (lists_of flat.now) }
    requires rises { IsStrictlySortedBy shape_order flat.now.shapes.now }
    requires reach { AreReachable flat.now.shapes.now }
    requires few { length flat.now.shapes.now ≤ 16777216 }
    requires few_labels { length flat.now.labels.now ≤ 2 ^ 22 }
    ensures { IfOk result (λ found. MatchOption found
        (IsFaultlessMacro trial.now.kit.now trial.now.name.now lib.now deck.now)
        (IsMacroFaultNumber trial.now.kit.now trial.now.name.now lib.now deck.now)) }
{
    let bins = index(alloc, bump, flat)?;
    if breaks_rule(rt, alloc, trial.kit, flat, &bins)? {
        return Ok(Some(81));
    }
    if differs(rt, alloc, trial.kit, trial.name, deck, flat, &bins)? {
        return Ok(Some(82));
    }
    if touches_outside(alloc, bump, trial, lib, flat, &bins)? {
        return Ok(Some(83));
    }
    Ok(None)
}

/// The number of the first fault of a made macro.
fn macro_fault<R: Threads + Sync, M: Maker>(
    rt: &R,
    alloc: Global,
    trial: &Trial<M>,
    lib: &Library,
    deck: &Deck,
) -> Result<Option<u32>, Memory>
    requires kit { IsKit trial.now.kit.now }
    requires made { IsGoodMacro trial.now.kit.now trial.now.name.now lib.now deck.now }
    requires leaves { AreLooseLeaves trial.now.kit.now trial.now.leaves.now }
    ensures { IfOk result (λ found. MatchOption found
        (IsFaultlessMacro trial.now.kit.now trial.now.name.now lib.now deck.now)
        (IsMacroFaultNumber trial.now.kit.now trial.now.name.now lib.now deck.now)) }
{
    let bump = Bump::new(alloc);
    match flat_of(alloc, &bump, trial.kit, trial.name, lib) {
        Ok(flat) => flat_fault(rt, alloc, &bump, trial, lib, deck, &flat),
        Err(FlattenFault::TooDeep { .. }) => Ok(Some(33)),
        Err(FlattenFault::TooMany { .. }) => Ok(Some(34)),
        Err(FlattenFault::Far { .. }) => Ok(Some(35)),
        Err(FlattenFault::UnknownStruct { .. }) => unreachable!(),
        Err(FlattenFault::Cycle { .. }) => unreachable!(),
        Err(FlattenFault::Memory) => Err(Memory),
    }
}

/// The number of the first fault of a window; none where a cell is too wide for the window's columns.
pub fn window_fault<R: Threads + Sync, M: Maker>(
    rt: &R,
    alloc: Global,
    trial: &Trial<M>,
    window: &Window,
) -> Result<Option<u32>, Memory>
    requires trial { IsTrial (M.answers trial.now.maker.now) trial.now.kit.now trial.now.leaves.now trial.now.name.now }
    requires window { Contains all_windows window.now }
    ensures { IfOk result (λ found. MatchOption found
        (IsWindowGood (M.answers trial.now.maker.now) trial.now.kit.now trial.now.name.now window.now)
        (HasWindowFault (M.answers trial.now.maker.now) trial.now.kit.now trial.now.name.now window.now)) }
{
    let plan = plan_of(window);
    match trial.maker.make(alloc, trial.kit, &plan, trial.name) {
        Ok((lib, deck)) => macro_fault(rt, alloc, trial, &lib, &deck),
        Err(PartFault::Close { .. }) => Ok(Some(71)),
        Err(PartFault::TapsClose { .. }) => Ok(Some(72)),
        Err(PartFault::SliceTooNarrow { .. }) => Ok(None),
        Err(PartFault::NameTaken { .. }) => unreachable!(),
        Err(PartFault::Memory) => Err(Memory),
    }
}
