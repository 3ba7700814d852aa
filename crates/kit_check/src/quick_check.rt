ghost use Rattle.std.specs.Prelude.{◌<◌, IfOk, IsTrue};
ghost use Rattle.leaf_tables.specs.Kits.{IsKit};
ghost use Rattle.leaf_nets.specs.Leaves.{AreLooseLeaves};
ghost use Rattle.kit_check.specs.Makers.{IsGoodMaker};
ghost use Rattle.kit_check.specs.Quick.{ArePassingWindows, PassesQuickCheck};

use crate::first::weak_wires;
use crate::free_name::window_name;
use crate::judge::Trial;
use crate::maker::Maker;
use crate::quick_share::windows_pass;
use crate::window::windows;
use leaf_nets::{KitNets, LooseLeaf, kit_nets};
use leaf_tables::Kit;
use or_geom::Memory;
use std::alloc::Global;
use std::thread::Threads;

/// Whether all windows of a kit pass the quick check.
fn pass_windows<R: Threads + Sync, M: Maker + Sync>(
    rt: &R,
    alloc: Global,
    kit: &Kit,
    leaves: &[LooseLeaf],
    maker: &M,
    workers: u8,
) -> Result<bool, Memory>
    requires kit { IsKit kit.now }
    requires leaves { AreLooseLeaves kit.now leaves.now }
    requires maker { IsGoodMaker (M.answers maker.now) kit.now }
    requires some { 0 < workers }
    ensures { IfOk result (λ passes. IsTrue passes → ArePassingWindows (M.answers maker.now) kit.now) }
{
    let name = window_name(alloc, kit)?;
    let windows = windows(alloc)?;
    let trial = Trial {
        kit,
        leaves,
        maker,
        name: &name,
    };
    windows_pass(rt, alloc, &trial, &windows, usize::from(workers))
}

/// Whether a kit passes the quick check, by 1 to 64 workers: as `weakness`, but the rules of five in nine of the
/// windows are looked at, and the nets of seven. For macros as a build assembles them it suffices that a kit passes:
/// then it is good. That a good kit passes isn't claimed. Who gets false asks `weakness`.
///
/// `Memory`: an answer or a list could not be made.
pub fn passes_quick_check<R: Threads + Sync, M: Maker + Sync>(
    rt: &R,
    alloc: Global,
    kit: &Kit,
    maker: &M,
    workers: u8,
) -> Result<bool, Memory>
    requires kit { IsKit kit.now }
    requires maker { IsGoodMaker (M.answers maker.now) kit.now }
    requires some { 0 < workers }
    ensures { IfOk result (λ passes. IsTrue passes → PassesQuickCheck (M.answers maker.now) kit.now) }
{
    let weak = weak_wires(alloc, kit)?;
    if weak.is_some() {
        return Ok(false);
    }
    match kit_nets(alloc, kit)? {
        KitNets::Wrong { .. } => Ok(false),
        KitNets::Loose(leaves) => pass_windows(rt, alloc, kit, &leaves, maker, workers),
    }
}
