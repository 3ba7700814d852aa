ghost use Rattle.std.specs.Prelude.{◌≡◌, ◌<◌, ◌≤◌, ◌^◌, ◌*◌, IfOk, pos};
ghost use Rattle.tech_rules.specs.Facts.{AreSizes};
ghost use Rattle.sram_netlist.specs.Organization.{words_per_row};
ghost use Rattle.sram_netlist.specs.InstanceList.{tabulate};
ghost use Rattle.sram_netlist.specs.Numbers.{ArePlanNumbers};
ghost use Rattle.sram_plan.specs.PlanNumbers.{numbers_of, organization};
ghost use Rattle.macro_layout.specs.Floorplan.{line_count, choice_count, rail_x};
ghost use Rattle.floorplan.specs.FloorplanNumbers.{IsUpTo};

use floorplan::{choices, pitches};
use or_geom::Memory;
use sram_plan::Plan;
use std::alloc::Global;
use tech_rules::Wire;

/// How many column choices there are.
pub fn choice_count(plan: &Plan) -> u32
    requires { ArePlanNumbers (numbers_of plan.now) }
    ensures value { result ≡ choice_count (organization plan.now).col_bits }
    ensures few { result ≤ 8 }
{
    choices(plan.col_bits)
}

/// How many lines the groups of row bits have.
pub fn line_count(plan: &Plan) -> u32
    requires { ArePlanNumbers (numbers_of plan.now) }
    ensures value { result ≡ line_count (organization plan.now).groups }
    ensures few { result ≤ 24 }
{
    choices(plan.groups[0]) + choices(plan.groups[1]) + choices(plan.groups[2])
}

/// Where a rail stands.
pub fn rail_x(rail: u32, wire: &Wire) -> i64
    requires sizes { AreSizes wire.now }
    requires few { rail ≤ 64 }
    ensures is { result ≡ rail_x wire.now rail }
    ensures near { IsUpTo (2 ^ 24) result }
{
    pitches(rail + 1, wire) as i64
}

/// Where so many rails stand.
pub fn rail_xs(alloc: Global, count: u32, wire: &Wire) -> Result<Vec<i64>, Memory>
    requires sizes { AreSizes wire.now }
    requires few { count ≤ 64 }
    ensures { IfOk result (λ xs. xs.items ≡ tabulate count (rail_x wire.now)) }
{
    let mut xs = Vec::new(alloc);
    for rail in 0..count {
        xs.push(rail_x(rail, wire))?;
    }
    Ok(xs)
}

/// How far behind the first column a column begins.
pub fn column_offset(column: u32, width: u32) -> i64
    requires column { column ≤ 256 }
    requires width { width ≤ 65536 }
    ensures is { result ≡ pos (column * width) }
    ensures near { IsUpTo (2 ^ 24) result }
{
    i64::from(column * width)
}

/// The first column of a bit of the word.
pub fn first_column(plan: &Plan, bit: u32) -> u32
    requires plan { ArePlanNumbers (numbers_of plan.now) }
    requires bit { bit < plan.now.word_size }
    ensures is { result ≡ bit * words_per_row (organization plan.now) }
    ensures few { result ≤ 256 }
{
    bit * plan.wpr
}
