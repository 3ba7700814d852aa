ghost use Rattle.std.specs.Prelude.{◌≡◌, ◌≤◌, ◌+◌, ◌^◌, pos, ◌+ℤ◌, ◌*ℤ◌, ◌≤ℤ◌};
ghost use Rattle.std.specs.Int.{int_max};
ghost use Rattle.tech_rules.specs.Facts.{AreSizes};
ghost use Rattle.wire_drawing.specs.Drawing.{pitch};
ghost use Rattle.sram_netlist.specs.InstanceList.{logic_cells};
ghost use Rattle.sram_netlist.specs.Numbers.{ArePlanNumbers};
ghost use Rattle.sram_plan.specs.PlanNumbers.{numbers_of, organization};
ghost use Rattle.macro_layout.specs.LayoutKit.{LayoutKit};
ghost use Rattle.macro_layout.specs.Places.{total_width};
ghost use Rattle.floorplan.specs.Sides.{AreLeafSides, AreSidesOf};
ghost use Rattle.floorplan.specs.FloorplanNumbers.{floorplan_of, IsUpTo, IsNearFloorplan, EndsBehindColumns};
ghost use Rattle.floorplan.specs.Trunks.{IsBehind};
ghost use Rattle.sram_macro.specs.Extents.{AreExtents, AreNearExtents};

use floorplan::{FloorplanNumbers, LeafSides};
use sram_plan::Plan;
use tech_rules::Wire;

/// Where the supply trunks of a macro stand, and its sides, in nanometres.
#[derive(Clone, Copy, Debug)]
pub struct Extents {
    /// The left sides of the trunks of vdd and gnd.
    pub power_x: i64,
    pub ground_x: i64,
    pub width: i64,
    pub height: i64,
}

/// Where the banks end, which are so wide.
fn banks_end(count: u32, width: i64) -> i64
    requires few { count ≤ 4 }
    requires width { IsUpTo (2 ^ 25) width }
    ensures { result ≡ pos count *ℤ width }
{
    i64::from(count) * width
}

/// Where the logic row ends, which begins at `from`.
fn logic_end(from: i64, width: u32) -> i64
    requires from { IsUpTo (2 ^ 17) from }
    requires few { width ≤ 2 ^ 29 }
    ensures is { result ≡ from +ℤ pos width }
    ensures near { IsUpTo (2 ^ 29 + 2 ^ 17) result }
{
    from + i64::from(width)
}

/// The right end of the banks or of the logic row, whichever is further right.
fn right_end(banks: i64, logic: i64) -> i64
    requires banks { IsUpTo (2 ^ 27) banks }
    requires logic { IsUpTo (2 ^ 29 + 2 ^ 17) logic }
    ensures is { result ≡ int_max banks logic }
    ensures near { IsUpTo (2 ^ 29 + 2 ^ 17) result }
    ensures behind_banks { banks ≤ℤ result }
    ensures behind_logic { logic ≤ℤ result }
{
    banks.max(logic)
}

/// Where the trunks stand behind what ends here, and how the macro ends.
fn extents_behind(end: i64, wire: &Wire, height: i64) -> Extents
    requires sizes { AreSizes wire.now }
    requires end { IsUpTo (2 ^ 29 + 2 ^ 17) end }
    requires height { IsUpTo (2 ^ 30 + 65536) height }
    ensures power { result.power_x ≡ end +ℤ wire.now.space }
    ensures ground { result.ground_x ≡ (end +ℤ wire.now.space) +ℤ pitch wire.now }
    ensures width { result.width ≡ (end +ℤ wire.now.space) +ℤ (pos 2 *ℤ pitch wire.now) }
    ensures height { result.height ≡ height }
    ensures near { AreNearExtents result }
{
    let power_x = end + wire.space;
    let pitch = wire.width + wire.space;
    Extents {
        power_x,
        ground_x: power_x + pitch,
        width: power_x + 2 * pitch,
        height,
    }
}

/// The macro's upper edge.
fn upper_edge(precharge_y: i64, height: u32) -> i64
    requires low { IsUpTo (2 ^ 30) precharge_y }
    requires few { height ≤ 65536 }
    ensures is { result ≡ precharge_y +ℤ pos height }
    ensures near { IsUpTo (2 ^ 30 + 65536) result }
{
    precharge_y + i64::from(height)
}

/// The trunks stand a space behind the banks and the logic row, which is `logic_width` wide, a pitch from each other,
/// and the macro ends two pitches behind the first.
pub fn extents_of(
    plan: &Plan,
    sides: &LeafSides,
    logic_width: u32,
    wire: &Wire,
    floorplan: &FloorplanNumbers,
) -> Extents
    requires plan { ArePlanNumbers (numbers_of plan.now) }
    requires sides { AreLeafSides sides.now }
    requires few { logic_width ≤ 2 ^ 29 }
    requires sizes { AreSizes wire.now }
    requires near { IsNearFloorplan floorplan.now }
    requires columns { EndsBehindColumns sides.now floorplan.now }
    ensures are { (kit : LayoutKit) → AreSidesOf (organization plan.now) kit sides.now
        → logic_width ≡ total_width (organization plan.now) kit (logic_cells (organization plan.now))
        → AreExtents (organization plan.now) kit wire.now (floorplan_of floorplan.now) result }
    ensures near { AreNearExtents result }
    ensures power { IsBehind sides.now floorplan.now result.power_x }
    ensures ground { IsBehind sides.now floorplan.now result.ground_x }
{
    let banks = banks_end(plan.banks, floorplan.bank_width);
    let logic = logic_end(floorplan.logic_x, logic_width);
    let height = upper_edge(floorplan.precharge_y, sides.precharge_height);
    extents_behind(right_end(banks, logic), wire, height)
}
