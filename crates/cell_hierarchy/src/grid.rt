ghost use Rattle.std.specs.Prelude.{◌≡◌, ◌^◌, pos, ◌+ℤ◌, ◌*ℤ◌, FitsSigned};
ghost use Rattle.std.specs.Int.{w32};
ghost use Rattle.or_geom.specs.Place.{IsWithin};
ghost use Rattle.cell_hierarchy.specs.Grid.{IsWritableGrid, IsSpotOf, IsShortWay, place_in};

use or_geom::{Place, Point};

/// An array of references: `across` leads from one column to the next, `down` from one row to the next.
#[derive(Clone, Copy)]
pub struct ItemGrid {
    pub place: Place,
    pub columns: u16,
    pub rows: u16,
    pub across: Point,
    pub down: Point,
}

/// A column and a row, from 0.
#[derive(Clone, Copy)]
pub struct Spot {
    pub column: u16,
    pub row: u16,
}

/// So many steps of one length from a coordinate.
#[derive(Clone, Copy)]
struct AxisSteps {
    from: i64,
    count: u16,
    length: i64,
}

/// Where the steps lead.
fn end_of(steps: AxisSteps) -> i64
    requires from { FitsSigned w32 steps.from }
    requires way { IsShortWay steps.count steps.length }
    ensures { result ≡ steps.from +ℤ pos steps.count *ℤ steps.length }
{
    let way = i64::from(steps.count) * steps.length;
    steps.from + way
}

/// The place of an array's item.
pub fn place_at(grid: ItemGrid, spot: Spot) -> Place
    requires writable { IsWritableGrid grid }
    requires spot { IsSpotOf grid spot }
    ensures is { result ≡ place_in grid spot.column spot.row }
    ensures near { IsWithin (2 ^ 33) result.at }
{
    let across_x = end_of(AxisSteps {
        from: grid.place.at.x,
        count: spot.column,
        length: grid.across.x,
    });
    let across_y = end_of(AxisSteps {
        from: grid.place.at.y,
        count: spot.column,
        length: grid.across.y,
    });
    let x = end_of(AxisSteps {
        from: across_x,
        count: spot.row,
        length: grid.down.x,
    });
    let y = end_of(AxisSteps {
        from: across_y,
        count: spot.row,
        length: grid.down.y,
    });
    Place {
        orient: grid.place.orient,
        at: Point { x, y },
    }
}
