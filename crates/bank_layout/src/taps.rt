ghost use Rattle.std.specs.Prelude.{◌≡◌, ◌++◌, ◌+◌, ◌*◌, ◌<◌, ◌≤◌, ◌^◌, pos, ◌+ℤ◌, IfOk, OnOk};
ghost use Rattle.or_geom.specs.Distance.{IsNear};
ghost use Rattle.or_geom.specs.Place.{IsNearPoint};
ghost use Rattle.cell_roles.specs.declared.role.Role.TheVariants.{Precharge, Sense};
ghost use Rattle.channel_router.specs.Wires.{channel_height};
ghost use Rattle.tech_rules.specs.Facts.{AreSizes};
ghost use Rattle.leaf_tables.specs.Kits.{IsKit};
ghost use Rattle.sram_netlist.specs.InstanceList.{tabulate};
ghost use Rattle.sram_netlist.specs.Numbers.{ArePlanNumbers};
ghost use Rattle.sram_plan.specs.PlanNumbers.{numbers_of, organization};
ghost use Rattle.macro_layout.specs.Places.{upright};
ghost use Rattle.macro_layout.specs.Floorplan.{choice_count, rail_x};
ghost use Rattle.floorplan.specs.LayoutOfKit.{layout_kit};
ghost use Rattle.floorplan.specs.Sides.{AreLeafSides, AreSidesOf};
ghost use Rattle.floorplan.specs.FloorplanNumbers.{floorplan_of, columns_from, IsUpTo, IsNearFloorplan};
ghost use Rattle.bank_layout.specs.BankTaps.{AreBankTaps, IsLeafTap, choice_tap, precharge_tap, sense_tap};
ghost use Rattle.bank_layout.specs.Near.{HasTracks};

use crate::leaves::{pin_of, pin_tap};
use crate::numbers::{choice_count, column_offset, line_count, rail_x};
use cell_roles::Role;
use floorplan::{FloorplanNumbers, LeafSides, columns_x, pitches};
use leaf_tables::Kit;
use or_geom::{Memory, Orient, Place, Point};
use row_decoder::taps as row_taps;
use sram_plan::Plan;
use std::alloc::Global;
use tech_rules::Wire;
use wire_drawing::Tap;

/// The place of a cell of a column, at this height above the bank's lower edge.
fn column_place(column: u32, sides: &LeafSides, floorplan: &FloorplanNumbers, y: i64) -> Place
    requires column { column ≤ 256 }
    requires sides { AreLeafSides sides.now }
    requires near { IsNearFloorplan floorplan.now }
    requires y { IsNear y }
    ensures is { result ≡ upright (columns_from sides.now floorplan.now +ℤ pos (column * sides.now.bit_width)) y }
    ensures near { IsNearPoint result.at }
{
    Place {
        orient: Orient::R0,
        at: Point {
            x: columns_x(sides, floorplan) + column_offset(column, sides.bit_width),
            y,
        },
    }
}

/// The tap of the last sense cell's enable.
fn sense_tap(kit: &Kit, plan: &Plan, sides: &LeafSides, floorplan: &FloorplanNumbers) -> Tap
    requires kit { IsKit kit.now }
    requires plan { ArePlanNumbers (numbers_of plan.now) }
    requires sides { AreLeafSides sides.now }
    requires near { IsNearFloorplan floorplan.now }
    requires sides_of { AreSidesOf (organization plan.now) (layout_kit kit.now) sides.now }
    ensures { IsLeafTap kit.now.leaves Sense 3 (sense_tap (organization plan.now) (layout_kit kit.now)
        (floorplan_of floorplan.now)) result }
{
    let column = plan.columns - plan.wpr;
    let y = floorplan.sense_y - floorplan.write_y;
    let place = column_place(column, sides, floorplan, y);
    pin_tap(line_count(plan) + 1, place, pin_of(kit, Role::Sense, 3))
}

/// The tap of the last precharge cell's enable.
fn precharge_tap(kit: &Kit, plan: &Plan, sides: &LeafSides, floorplan: &FloorplanNumbers) -> Tap
    requires kit { IsKit kit.now }
    requires plan { ArePlanNumbers (numbers_of plan.now) }
    requires sides { AreLeafSides sides.now }
    requires near { IsNearFloorplan floorplan.now }
    requires sides_of { AreSidesOf (organization plan.now) (layout_kit kit.now) sides.now }
    ensures { IsLeafTap kit.now.leaves Precharge 2 (precharge_tap (organization plan.now) (layout_kit kit.now)
        (floorplan_of floorplan.now)) result }
{
    let y = floorplan.precharge_y - floorplan.write_y;
    let place = column_place(plan.columns - 1, sides, floorplan, y);
    pin_tap(line_count(plan) + 2, place, pin_of(kit, Role::Precharge, 2))
}

/// The tap along a track of a channel that begins at `low`.
fn choice_tap(rail: u32, low: i64, track: u32, wire: &Wire) -> Tap
    requires sizes { AreSizes wire.now }
    requires rail { rail ≤ 64 }
    requires low { IsUpTo (2 ^ 20) low }
    requires track { track < 1024 }
    ensures { result ≡ record {
      rail = rail;
      y = low +ℤ channel_height wire.now track;
      end = rail_x wire.now rail +ℤ wire.now.width;
    } }
{
    Tap {
        rail,
        y: low + wire.space + pitches(track, wire) as i64,
        end: rail_x(rail, wire) + wire.width,
    }
}

/// Adds the taps of the column choices: their rails begin at `first`, and their tracks are those of a channel that
/// begins at `low`.
fn add_choice_taps(
    first: u32,
    low: i64,
    tracks: &[u32],
    count: u32,
    wire: &Wire,
    taps: &mut Vec<Tap>,
) -> Result<(), Memory>
    requires sizes { AreSizes wire.now }
    requires first { first ≤ 32 }
    requires low { IsUpTo (2 ^ 20) low }
    requires few { count ≤ 8 }
    requires tracks { HasTracks count tracks.now }
    ensures { OnOk result (taps.new.items
        ≡ taps.old.items ++ tabulate count (choice_tap wire.now low first tracks.now)) }
{
    for choice in 0..count {
        let track = tracks[choice as usize];
        taps.push(choice_tap(first + choice, low, track, wire))?;
    }
    Ok(())
}

/// The taps of a bank.
pub fn bank_taps(
    alloc: Global,
    kit: &Kit,
    plan: &Plan,
    sides: &LeafSides,
    floorplan: &FloorplanNumbers,
    tracks: &[u32],
    wire: &Wire,
) -> Result<Vec<Tap>, Memory>
    requires kit { IsKit kit.now }
    requires plan { ArePlanNumbers (numbers_of plan.now) }
    requires sides { AreLeafSides sides.now }
    requires near { IsNearFloorplan floorplan.now }
    requires sides_of { AreSidesOf (organization plan.now) (layout_kit kit.now) sides.now }
    requires sizes { AreSizes wire.now }
    requires stands { floorplan.now.sense_y ≡ floorplan.now.write_y +ℤ pos sides.now.write_height }
    requires tracks { HasTracks (choice_count (organization plan.now).col_bits) tracks.now }
    ensures { IfOk result (λ taps. AreBankTaps kit.now.leaves (organization plan.now) (layout_kit kit.now) wire.now
        (floorplan_of floorplan.now) tracks.now taps.items) }
{
    let array = floorplan.array_y - floorplan.write_y;
    let mut taps = row_taps(alloc, kit, plan, floorplan.row_x, array)?;
    taps.push(sense_tap(kit, plan, sides, floorplan))?;
    taps.push(precharge_tap(kit, plan, sides, floorplan))?;
    let first = line_count(plan) + 3;
    let low = floorplan.sense_y - floorplan.write_y + i64::from(sides.sense_height);
    add_choice_taps(first, low, tracks, choice_count(plan), wire, &mut taps)?;
    Ok(taps)
}
