ghost use Rattle.std.specs.Prelude.{◌≡◌, ◌≤ℤ◌, ℤ, pos, Some, IfSome};
ghost use Rattle.std.specs.Option.{option_map};
ghost use Rattle.or_geom.specs.declared.shape.Point.{Point};
ghost use Rattle.gds_records.specs.Bytes.{records_of, MatchesReader};
ghost use Rattle.gds_records.specs.Reading.{taken_at};
ghost use Rattle.gds_records.specs.Values.{IsShort};
ghost use Rattle.gds_records.specs.declared.error.Demand.TheVariants as demand;
ghost use Rattle.gds_library.specs.Values.{counts_of};
ghost use Rattle.gds_library.specs.ReadElements.{three_points_of, displacement_of, step_of, pitch_of, lattice_in};
ghost use Rattle.gds_library.specs.ReadElements.{lattice_of, aref_at};
ghost use Rattle.gds_library.specs.Arrays.{AreShortPoints, as_counts, as_lattice, as_three};

use crate::lattice::{ArrayCounts, ArrayGrid, Displaced, DividedLength, Step, StepCount};
use crate::library::Element;
use crate::property::properties_from;
use crate::reference::{named_from, orient_from};
use gds_records::code::*;
use gds_records::{Demand, RecordError, first_point, next, unmet};
use or_geom::{Place, Point};
use std::alloc::Global;

fn counts_in(content: &[u8]) -> Option<ArrayCounts>
    ensures { option_map as_counts result ≡ counts_of content.now }
{
    let [a, b, c, d] = content else {
        return None;
    };
    let columns = i16::from_be_bytes([*a, *b]);
    let rows = i16::from_be_bytes([*c, *d]);
    if 1 <= columns && 1 <= rows {
        Some(ArrayCounts { columns, rows })
    } else {
        None
    }
}

/// COLROW.
#[tactic(auto, unfolding(gds_records::specs::Reading::taken_at))]
fn counts_from(bytes: &[u8]) -> Result<(ArrayCounts, &[u8]), RecordError>
    ensures { MatchesReader (λ p. (p.0, p.1.now)) as_counts result
        (taken_at demand.Transform COLROW counts_of (records_of bytes.now)) }
{
    let (taken, rest) = next(COLROW, bytes)?;
    match counts_in(taken.content) {
        Some(counts) => Ok((counts, rest)),
        None => Err(unmet(taken, Demand::Transform)),
    }
}

#[tactic(auto, unfolding(crate::specs::ReadElements::three_points_of))]
fn three_points(content: &[u8]) -> Option<Displaced>
    ensures value { option_map as_three result ≡ three_points_of content.now }
    ensures short { IfSome result AreShortPoints }
{
    let (at, rest) = first_point(content)?;
    let (by_columns, rest) = first_point(rest)?;
    let (by_rows, rest) = first_point(rest)?;
    if !rest.is_empty() {
        return None;
    }
    Some(Displaced {
        at,
        by_columns,
        by_rows,
    })
}

/// How far one point is from another.
fn displacement(from: Point, to: Point) -> Point
    requires from { IsShort from }
    requires to { IsShort to }
    ensures { result ≡ displacement_of from to }
{
    Point {
        x: to.x - from.x,
        y: to.y - from.y,
    }
}

/// A stretch divided into equal steps. None stands for one that they don't fill.
#[tactic(auto, unfolding(crate::specs::ReadElements::step_of))]
fn step(stretch: DividedLength) -> Option<Step>
    requires { pos 1 ≤ℤ stretch.count }
    ensures { option_map (λ s. s.length) result ≡ step_of stretch.count stretch.length }
{
    if stretch.length % stretch.count != 0 {
        return None;
    }
    Some(Step {
        length: stretch.length / stretch.count,
    })
}

/// The pitch of so many steps that make a displacement.
#[tactic(auto, unfolding(crate::specs::ReadElements::pitch_of))]
fn pitch(steps: StepCount, by: Point) -> Option<Point>
    requires { pos 1 ≤ℤ steps.count }
    ensures { result ≡ pitch_of steps.count by }
{
    let across = step(DividedLength {
        length: by.x,
        count: steps.count,
    })?;
    let upward = step(DividedLength {
        length: by.y,
        count: steps.count,
    })?;
    Some(Point {
        x: across.length,
        y: upward.length,
    })
}

/// The grid whose columns and rows make these displacements.
fn grid_of(counts: ArrayCounts, points: Displaced) -> Option<ArrayGrid>
    requires { AreShortPoints points }
    ensures { option_map as_lattice result ≡ lattice_in (as_counts counts) (Some (as_three points)) }
{
    let columns = StepCount {
        count: i64::from(counts.columns),
    };
    let rows = StepCount {
        count: i64::from(counts.rows),
    };
    let across = pitch(columns, displacement(points.at, points.by_columns))?;
    let down = pitch(rows, displacement(points.at, points.by_rows))?;
    Some(ArrayGrid {
        at: points.at,
        across,
        down,
    })
}

#[tactic(auto, unfolding(crate::specs::ReadElements::lattice_of))]
fn grid_in(counts: ArrayCounts, content: &[u8]) -> Option<ArrayGrid>
    ensures { option_map as_lattice result ≡ lattice_of (as_counts counts) content.now }
{
    let points = three_points(content)?;
    grid_of(counts, points)
}

/// XY of an array.
#[tactic(auto, unfolding(gds_records::specs::Reading::taken_at))]
fn grid_from(counts: ArrayCounts, bytes: &[u8]) -> Result<(ArrayGrid, &[u8]), RecordError>
    ensures { MatchesReader (λ p. (p.0, p.1.now)) as_lattice result
        (taken_at demand.Transform XY (lattice_of (as_counts counts)) (records_of bytes.now)) }
{
    let (taken, rest) = next(XY, bytes)?;
    match grid_in(counts, taken.content) {
        Some(grid) => Ok((grid, rest)),
        None => Err(unmet(taken, Demand::Transform)),
    }
}

/// AREF SNAME [STRANS [MAG] [ANGLE]] COLROW XY, and properties up to ENDEL.
#[tactic(auto, unfolding(crate::specs::ReadElements::aref_at))]
pub fn aref_from(alloc: Global, bytes: &[u8]) -> Result<(Element, &[u8]), RecordError>
    ensures { MatchesReader (λ p. (p.0, p.1.now)) (λ z. z) result (aref_at (records_of bytes.now)) }
{
    let (name, rest) = named_from(alloc, AREF, bytes)?;
    let (orient, rest) = orient_from(rest)?;
    let (counts, rest) = counts_from(rest)?;
    let (grid, rest) = grid_from(counts, rest)?;
    let (props, rest) = properties_from(alloc, rest)?;
    let element = Element::Aref {
        name,
        place: Place {
            orient,
            at: grid.at,
        },
        columns: counts.columns,
        rows: counts.rows,
        across: grid.across,
        down: grid.down,
        props,
    };
    Ok((element, rest))
}
