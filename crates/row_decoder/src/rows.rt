ghost use Rattle.std.specs.Prelude.{◌≡◌, ◌++◌, ◌^◌, ◌<◌, ◌≤◌, pos, ◌≤ℤ◌, ◌*ℤ◌, length, IfOk, OnOk};
ghost use Rattle.std.specs.List.{AllByRecursion};
ghost use Rattle.or_geom.specs.Distance.{IsReachable};
ghost use Rattle.or_geom.specs.Place.{IsNearPoint, IsWithin};
ghost use Rattle.sram_netlist.specs.Organization.{IsGroupSize};
ghost use Rattle.sram_netlist.specs.Numbers.{ArePlanNumbers};
ghost use Rattle.sram_plan.specs.PlanNumbers.{numbers_of, organization};
ghost use Rattle.leaf_tables.specs.Kits.{IsKit};
ghost use Rattle.macro_layout.specs.Floorplan.{line_count};
ghost use Rattle.row_decoder.specs.RowTaps.{corner_at, pin_tap, row_place, input_taps, row_taps, row_leaves_of};
ghost use Rattle.row_decoder.specs.RowTaps.{AreTapsOfRows};
ghost use Rattle.leaf_tables.specs.NearLeaf.{IsLeafLength, ArePinsReachable, IsNearLeaf};

use cell_roles::Role;
use leaf_tables::{Kit, Leaf, LeafPin, leaf_of};
use or_geom::{Memory, Orient, Place, Point};
use port_lists::{groups_of, lines_of, row_gate_role};
use sram_plan::Plan;
use std::alloc::Global;
use wire_drawing::Tap;

/// The tap of a pin of a cell that stands at the place.
fn pin_tap(rail: u32, place: Place, pin: &LeafPin) -> Tap
    requires place { IsNearPoint place.at }
    requires pin { IsReachable pin.now.rect }
    ensures { result ≡ pin_tap rail place pin.now }
{
    let rect = place.apply(pin.rect);
    Tap {
        rail,
        y: rect.y1,
        end: rect.x2,
    }
}

/// The height of so many rows.
fn rows_height(rows: u32, height: i64) -> i64
    requires rows { rows ≤ 256 }
    requires height { IsLeafLength height }
    ensures is { result ≡ pos rows *ℤ height }
    ensures above { pos 0 ≤ℤ result }
    ensures below { result ≤ℤ pos 16777216 }
{
    i64::from(rows) * height
}

/// Where a cell of the row stands that stands at the corner in row 0. Rows are `height` high.
fn row_place(height: i64, corner: Point, row: u32) -> Place
    requires height { IsLeafLength height }
    requires corner { IsWithin (2 ^ 32) corner }
    requires row { row < 256 }
    ensures is { result ≡ row_place height corner row }
    ensures near { IsNearPoint result.at }
{
    if row % 2 == 0 {
        let y = corner.y + rows_height(row, height);
        return Place {
            orient: Orient::R0,
            at: Point { x: corner.x, y },
        };
    }
    let y = corner.y + rows_height(row + 1, height);
    Place {
        orient: Orient::MX,
        at: Point { x: corner.x, y },
    }
}

/// The count of the lines of all groups.
fn line_count(groups: &[u32]) -> u32
    requires few { length groups.now ≤ 3 }
    requires sizes { AllByRecursion IsGroupSize groups.now }
    ensures { result ≡ line_count groups.now }
{
    let mut count = 0;
    let mut rest = groups;
    while let Some((bits, others)) = rest.split_first() {
        count += lines_of(*bits);
        rest = others;
    }
    count
}

/// Adds the taps of the inputs of the row's gate, group by group.
fn add_input_taps(
    groups: &[u32],
    pins: &[LeafPin],
    place: Place,
    row: u32,
    taps: &mut Vec<Tap>,
) -> Result<(), Memory>
    requires few { length groups.now ≤ 3 }
    requires sizes { AllByRecursion IsGroupSize groups.now }
    requires inputs { length groups.now ≤ length pins.now }
    requires place { IsNearPoint place.at }
    requires pins { ArePinsReachable pins.now }
    ensures { OnOk result (taps.new.items ≡ taps.old.items ++ input_taps place pins.now groups.now 0 row) }
{
    let mut input = 0;
    let mut rail = 0;
    let mut left = row;
    let mut rest = groups;
    while let Some((bits, others)) = rest.split_first() {
        let lines = lines_of(*bits);
        taps.push(pin_tap(rail + left % lines, place, &pins[input]))?;
        input += 1;
        rail += lines;
        left /= lines;
        rest = others;
    }
    Ok(())
}

/// Adds the taps of a row: those of its gate's inputs, and that of its driver's enable. The gate of row 0 stands at the
/// corner, and rows are `height` high.
fn add_row_taps(
    groups: &[u32],
    gate: &Leaf,
    enable: &LeafPin,
    height: i64,
    corner: Point,
    row: u32,
    taps: &mut Vec<Tap>,
) -> Result<(), Memory>
    requires few { length groups.now ≤ 3 }
    requires sizes { AllByRecursion IsGroupSize groups.now }
    requires inputs { length groups.now ≤ length gate.now.pins }
    requires gate { IsNearLeaf gate.now }
    requires enable { IsReachable enable.now.rect }
    requires height { IsLeafLength height }
    requires corner { IsWithin (2 ^ 31) corner }
    requires row { row < 256 }
    ensures { OnOk result (taps.new.items
        ≡ taps.old.items ++ row_taps groups.now (row_leaves_of gate.now enable.now height) corner row) }
{
    let behind = Point {
        x: corner.x + gate.width,
        y: corner.y,
    };
    let gate_place = row_place(height, corner, row);
    let driver_place = row_place(height, behind, row);
    add_input_taps(groups, gate.pins.as_slice(), gate_place, row, taps)?;
    taps.push(pin_tap(line_count(groups), driver_place, enable))?;
    Ok(())
}

/// The taps of all rows of a bank whose row 0 has the lower left corner of its gate at `x` and `y`, in nanometres: row
/// by row those of the gate's inputs, and then that of the driver's enable. Rails are counted through the lines of the
/// groups, group by group, and then the word line enable. `x` and `y` are within 2^31.
pub fn taps(alloc: Global, kit: &Kit, plan: &Plan, x: i64, y: i64) -> Result<Vec<Tap>, Memory>
    requires kit { IsKit kit.now }
    requires numbers { ArePlanNumbers (numbers_of plan.now) }
    requires corner { IsWithin (2 ^ 31) (corner_at x y) }
    ensures { IfOk result (λ taps. AreTapsOfRows kit.now.leaves (organization plan.now) (corner_at x y) taps.items) }
{
    let groups = groups_of(alloc, plan)?;
    let gate = leaf_of(kit, row_gate_role(&groups));
    let enable = &leaf_of(kit, Role::Driver).pins.as_slice()[1];
    let height = leaf_of(kit, Role::Bitcell).height;
    let corner = Point { x, y };
    let mut taps = Vec::new(alloc);
    for row in 0..plan.rows {
        add_row_taps(&groups, gate, enable, height, corner, row, &mut taps)?;
    }
    Ok(taps)
}
