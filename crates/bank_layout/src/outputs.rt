ghost use Rattle.std.specs.Prelude.{◌<◌, ◌≤◌, ◌^◌, pos, ◌+ℤ◌, ◌<ℤ◌, OnOk, length, slice_index};
ghost use Rattle.or_geom.specs.Adds.{Adds};
ghost use Rattle.tech_rules.specs.Facts.{AreSizes};
ghost use Rattle.wire_drawing.specs.Drawing.{IsBox};
ghost use Rattle.sram_netlist.specs.Organization.{IsWritten, inputs_of, words_per_row};
ghost use Rattle.sram_netlist.specs.Numbers.{ArePlanNumbers};
ghost use Rattle.sram_plan.specs.PlanNumbers.{numbers_of, organization};
ghost use Rattle.floorplan.specs.FloorplanNumbers.{IsUpTo};
ghost use Rattle.bank_layout.specs.Outputs.{IsOutputBelow};

use crate::numbers::{column_offset, first_column};
use or_geom::{Memory, Rect, Shape};
use sram_plan::{Plan, inputs_of};
use tech_rules::Wire;

/// Adds a wire on the fourth metal, from the lower edge up.
fn add_output(x: i64, top: i64, wire: &Wire, shapes: &mut Vec<Shape>) -> Result<(), Memory>
    requires sizes { AreSizes wire.now }
    requires metals { 3 < length wire.now.metals }
    requires near { IsUpTo (2 ^ 26) x }
    requires tall { pos 0 <ℤ top }
    ensures { OnOk result (Adds shapes.old.items shapes.new.items
        (IsBox (slice_index wire.now.metals 3) x (pos 0) (x +ℤ wire.now.width) top)) }
{
    let rect = Rect {
        x1: x,
        y1: 0,
        x2: x + wire.width,
        y2: top,
    };
    shapes.push(Shape {
        layer: wire.metals[3],
        rect,
    })?;
    Ok(())
}

/// Adds the wires of the outputs, one for each bit of the word where something is written: the first at `first`, and
/// the others as far from each other as the bits' columns, which are so wide. They end at `top`.
pub fn add_outputs(
    plan: &Plan,
    first: i64,
    width: u32,
    top: i64,
    wire: &Wire,
    shapes: &mut Vec<Shape>,
) -> Result<(), Memory>
    requires plan { ArePlanNumbers (numbers_of plan.now) }
    requires sizes { AreSizes wire.now }
    requires metals { 3 < length wire.now.metals }
    requires near { IsUpTo (2 ^ 25) first }
    requires width { width ≤ 65536 }
    requires tall { IsWritten (organization plan.now) → pos 0 <ℤ top }
    ensures { OnOk result (Adds shapes.old.items shapes.new.items
        (IsOutputBelow wire.now first (words_per_row (organization plan.now)) width top
        (inputs_of (organization plan.now)))) }
{
    for bit in 0..inputs_of(plan) {
        let x = first + column_offset(first_column(plan, bit), width);
        add_output(x, top, wire, shapes)?;
    }
    Ok(())
}
