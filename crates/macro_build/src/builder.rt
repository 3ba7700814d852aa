ghost use Rattle.std.specs.Prelude.{◌<◌, ◌≤◌, IfOk, IfErr, IsTrue};
ghost use Rattle.leaf_tables.specs.Kits.{IsKit};
ghost use Rattle.port_lists.specs.Held.{held_of};
ghost use Rattle.sram_netlist.specs.Numbers.{ArePlanNumbers};
ghost use Rattle.sram_plan.specs.Config.{is_output_name};
ghost use Rattle.sram_plan.specs.PlanNumbers.{numbers_of};
ghost use Rattle.sram_macro.specs.Leaves.{HasCellsFor};
ghost use Rattle.macro_build.specs.Built.{IsBuilt, IsBuildFault};
ghost use Rattle.macro_build.specs.Memory.{FitsPlan};

use crate::built::{BuildFault, Built};
use crate::order::Order;
use crate::sound::check_sound;
use crate::views::views;
use sram_macro::assemble_with;
use std::alloc::Global;
use std::thread::Threads;
use tile_checker::Gate;

/// Builds the macro of this name from leaf cells, checks it by as many workers, and writes its views. Its bits are
/// stored, or those of fixed words. What is refused is refused in this order: a part that can't be built; a macro
/// without flat layout; a broken rule; labels that are joined otherwise than the netlist says. `Memory` may come in
/// place of each. What the views say to whoever reads them is part of `IsBuilt`: the netlist has the rows of the
/// reference netlist, which answers as an array of words or with the fixed ones, as the Verilog does, and the layout
/// is, flat, the stated one, breaks no rule and is joined as that netlist says.
pub fn build<R: Threads + Sync, G: Gate + Sync>(
    rt: &R,
    alloc: Global,
    gate: &G,
    order: &Order,
    workers: u8,
) -> Result<Built, BuildFault>
    requires kit { IsKit order.now.kit.now }
    requires plan { ArePlanNumbers (numbers_of order.now.plan.now) }
    requires name { IsTrue (is_output_name order.now.name.now) }
    requires held { FitsPlan order.now.plan.now (held_of order.now.contents) }
    requires cells { HasCellsFor order.now.kit.now (held_of order.now.contents) }
    requires some { 0 < workers }
    requires at_most { workers ≤ 64 }
    ensures built { IfOk result (IsBuilt order.now.kit.now order.now.plan.now (held_of order.now.contents)
        order.now.name.now) }
    ensures fault { IfErr result (IsBuildFault order.now.kit.now order.now.plan.now (held_of order.now.contents)
        order.now.name.now) }
{
    let assembled = assemble_with(alloc, order.kit, order.plan, order.name, order.contents);
    let made = assembled.map_err(BuildFault::of_part)?;
    check_sound(rt, alloc, gate, order, &made, workers)?;
    Ok(views(alloc, order, &made)?)
}
