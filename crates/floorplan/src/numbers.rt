ghost use Rattle.std.specs.Prelude.{◌≤◌};
ghost use Rattle.tech_rules.specs.Facts.{AreSizes};
ghost use Rattle.sram_netlist.specs.Numbers.{ArePlanNumbers};
ghost use Rattle.sram_plan.specs.PlanNumbers.{numbers_of, organization};
ghost use Rattle.macro_layout.specs.LayoutKit.{LayoutKit};
ghost use Rattle.macro_layout.specs.Floorplan.{IsFloorplan};
ghost use Rattle.floorplan.specs.Sides.{AreLeafSides, AreSidesOf};
ghost use Rattle.floorplan.specs.FloorplanNumbers.{floorplan_of, IsNearFloorplan, EndsBehindColumns};

use crate::counts::{channel_height, extent, pitches, rail_count};
use crate::sides::LeafSides;
use sram_plan::Plan;
use tech_rules::Wire;

/// Where the parts of a macro stand, in nanometres from its lower left corner.
#[derive(Clone, Copy, Debug)]
pub struct FloorplanNumbers {
    /// The left end of the logic row.
    pub logic_x: i64,
    /// The left end of the rows of the first bank, behind its rails.
    pub row_x: i64,
    /// The lower edges of the rows of write cells, sense cells, columns' ends, bits and precharge cells.
    pub write_y: i64,
    pub sense_y: i64,
    pub column_y: i64,
    pub array_y: i64,
    pub precharge_y: i64,
    /// How far a bank stands from the one before it.
    pub bank_width: i64,
}

/// The floorplan of a macro whose two channels have so many tracks.
pub fn floorplan(
    plan: &Plan,
    sides: &LeafSides,
    wire: &Wire,
    main_tracks: u32,
    column_tracks: u32,
) -> FloorplanNumbers
    requires plan { ArePlanNumbers (numbers_of plan.now) }
    requires sides { AreLeafSides sides.now }
    requires sizes { AreSizes wire.now }
    requires few_main { main_tracks ≤ 4096 }
    requires few_column { column_tracks ≤ 1024 }
    ensures stated { (kit : LayoutKit) → AreSidesOf (organization plan.now) kit sides.now
        → IsFloorplan (organization plan.now) kit wire.now (record { main = main_tracks; column = column_tracks })
        (floorplan_of result) }
    ensures near { IsNearFloorplan result }
    ensures columns { EndsBehindColumns sides.now result }
{
    let row_x = pitches(rail_count(plan) + 1, wire);
    let columns_x = row_x + sides.gate_width as u64 + sides.driver_width as u64;
    let write_y = sides.inv_height as u64 + channel_height(main_tracks, wire);
    let sense_y = write_y + sides.write_height as u64;
    let channel_y = sense_y + sides.sense_height as u64;
    let column_y = channel_y + channel_height(column_tracks, wire);
    let array_y = column_y + sides.end_height as u64;
    FloorplanNumbers {
        logic_x: wire.width + wire.space,
        row_x: row_x as i64,
        write_y: write_y as i64,
        sense_y: sense_y as i64,
        column_y: column_y as i64,
        array_y: array_y as i64,
        precharge_y: (array_y + extent(plan.rows, sides.bit_height)) as i64,
        bank_width: (columns_x + extent(plan.columns, sides.bit_width)) as i64,
    }
}
