ghost use Rattle.std.specs.Prelude.{◌≡◌, ◌<◌, ◌≤◌, ℕ, List, IfOk, MatchOption, Some, length, slice_get};
ghost use Rattle.cell_roles.specs.Roles.{role_name, role_ports};
ghost use Rattle.leaf_tables.specs.Kits.{IsKit};
ghost use Rattle.leaf_nets.specs.Leaves.{AreLooseLeaves};
ghost use Rattle.kit_check.specs.Good.{AreWindowsGood, AreWiresGood, IsWeakness, IsWindowWeakness, IsWireWeakness};
ghost use Rattle.kit_check.specs.Makers.{IsGoodMaker};
ghost use Rattle.kit_check.specs.declared.weak.Weak.TheVariants as weak;

use crate::free_name::window_name;
use crate::judge::Trial;
use crate::maker::Maker;
use crate::share::first_weak;
use crate::weak::Weak;
use crate::window::{window_at, windows};
use kit_rules::{first_wrong_joint, first_wrong_rule, is_short_reach, overhang, reach_with};
use leaf_nets::{KitNets, LooseLeaf, kit_nets};
use leaf_tables::{Kit, Role, wire_of};
use or_geom::{Memory, Name};
use std::alloc::Global;
use std::thread::Threads;

/// What the rules, the connections or the reach of the leaf cells lack.
pub fn weak_wires(alloc: Global, kit: &Kit) -> Result<Option<Weak>, Memory>
    requires { IsKit kit.now }
    ensures { IfOk result (λ found. MatchOption found (AreWiresGood kit.now) (IsWireWeakness kit.now)) }
{
    let wire = wire_of(kit);
    if let Some(rule) = first_wrong_rule(wire, kit.tech.rules.as_slice()) {
        return Ok(Some(Weak::Layer { rule: rule as u32 }));
    }
    if let Some(connect) = first_wrong_joint(wire, kit.tech.connects.as_slice()) {
        return Ok(Some(Weak::Joint {
            connect: connect as u32,
        }));
    }
    let overhang = overhang(alloc, kit)?;
    if !is_short_reach(kit, overhang) {
        let reach = reach_with(kit, overhang);
        return Ok(Some(Weak::Reach { reach }));
    }
    Ok(None)
}

/// The role's pin of this index, whose labels don't name it rightly.
fn weak_pin(alloc: Global, role: Role, pin: usize) -> Result<Weak, Memory>
    requires { pin < length (role_ports role) }
    ensures { IfOk result (λ it. (name : List ℕ) → slice_get (role_ports role) pin ≡ Some name
        → it ≡ weak.Pin (role_name role) name) }
{
    Ok(Weak::Pin {
        role: Name::from_bytes(alloc, role.name().as_bytes())?,
        pin: Name::from_bytes(alloc, role.ports()[pin].as_bytes())?,
    })
}

/// The first window with which something is wrong.
fn weak_window<R: Threads + Sync, M: Maker + Sync>(
    rt: &R,
    alloc: Global,
    kit: &Kit,
    leaves: &[LooseLeaf],
    maker: &M,
    workers: u8,
) -> Result<Option<Weak>, Memory>
    requires kit { IsKit kit.now }
    requires leaves { AreLooseLeaves kit.now leaves.now }
    requires maker { IsGoodMaker (M.answers maker.now) kit.now }
    requires some { 0 < workers }
    ensures { IfOk result (λ found. MatchOption found (AreWindowsGood (M.answers maker.now) kit.now)
        (IsWindowWeakness (M.answers maker.now) kit.now)) }
{
    let name = window_name(alloc, kit)?;
    let windows = windows(alloc)?;
    let trial = Trial {
        kit,
        leaves,
        maker,
        name: &name,
    };
    let Some(found) = first_weak(rt, alloc, &trial, &windows, usize::from(workers))? else {
        return Ok(None);
    };
    let window = window_at(&windows, found.index);
    Ok(Some(Weak::Window {
        word_size: window.word_size,
        write_size: window.write_size,
        wpr: window.wpr,
        rows: window.rows,
        banks: window.banks,
        fault: found.fault,
    }))
}

/// The first weakness of a kit, by 1 to 64 workers, on whose number the answer doesn't depend; None exactly where the
/// kit is good. First come rules, then connections, the reach of leaf cells and the labels of their pins, and then 540
/// small macros, which the maker makes.
///
/// `Memory`: an answer or a list could not be made.
pub fn weakness<R: Threads + Sync, M: Maker + Sync>(
    rt: &R,
    alloc: Global,
    kit: &Kit,
    maker: &M,
    workers: u8,
) -> Result<Option<Weak>, Memory>
    requires kit { IsKit kit.now }
    requires maker { IsGoodMaker (M.answers maker.now) kit.now }
    requires some { 0 < workers }
    requires few { workers ≤ 64 }
    ensures { IfOk result (IsWeakness (M.answers maker.now) kit.now) }
{
    if let Some(weak) = weak_wires(alloc, kit)? {
        return Ok(Some(weak));
    }
    match kit_nets(alloc, kit)? {
        KitNets::Wrong { role, pin } => Ok(Some(weak_pin(alloc, role, pin)?)),
        KitNets::Loose(leaves) => weak_window(rt, alloc, kit, &leaves, maker, workers),
    }
}
