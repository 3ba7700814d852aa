ghost use Rattle.std.specs.Prelude.{◌<◌, ◌≡◌, length, slice_get, slice_index, Some, IfOk, IfSome, OnOk};
ghost use Rattle.net_extractor.specs.Runs.{IsNearRun, IsShapeAdded, IsWider};

use or_geom::{Memory, Rect, Shape, around};

/// A run has no more shapes than this.
const MOST: usize = 16;

/// The rectangle around a run is at most so many times as long as its shapes together.
const LOOSEST: i64 = 4;

/// A shape of a run: its place and its rectangle.
#[derive(Clone, Copy)]
pub struct RunShape {
    pub place: usize,
    pub rect: Rect,
}

/// Shapes of one layer that stand one after another in an order: their layer, a rectangle that contains them, and the
/// position in the order where they end.
#[derive(Clone, Copy)]
pub struct NearRun {
    pub layer: u16,
    pub hull: Rect,
    pub end: usize,
}

/// The shape at a place.
#[inline(always)]
pub fn shape_at(shapes: &[Shape], place: usize) -> Shape
    requires { place < length shapes.now }
    ensures { slice_get shapes.now place ≡ Some result }
{
    shapes[place]
}

/// Half the way around the rectangle.
fn half_way(rect: Rect) -> i64 {
    let across = rect.x2.saturating_sub(rect.x1);
    let upward = rect.y2.saturating_sub(rect.y1);
    across.saturating_add(upward)
}

/// The rectangle around the run and the shape, if the run goes on with it: it is of the run's layer, and the rectangle
/// is not much longer than the shapes, of which `length` is the sum of the halves of their ways around.
fn hull_with(run: NearRun, shape: Shape, length: i64) -> Option<Rect>
    ensures { IfSome result (IsWider run shape) }
{
    if shape.layer != run.layer {
        return None;
    }
    let hull = around(run.hull, shape.rect);
    if length.saturating_mul(LOOSEST) < half_way(hull) {
        return None;
    }
    Some(hull)
}

/// The run of one shape, which ends at a position.
fn run_of(shape: Shape, end: usize) -> NearRun
    ensures { result ≡ record { layer = shape.layer; hull = shape.rect; end = end } }
{
    NearRun {
        layer: shape.layer,
        hull: shape.rect,
        end,
    }
}

/// Adds a shape to those of a run.
#[inline(always)]
fn add_shape(own: &mut Vec<RunShape>, place: usize, rect: Rect) -> Result<(), Memory>
    ensures { OnOk result (IsShapeAdded place rect own.old.items own.new.items) }
{
    Ok(own.push(RunShape { place, rect })?)
}

/// The run that begins at a position of the order. Its shapes are set in `own`. Where a run ends is chosen so that one
/// query for its rectangle takes the place of a query for each shape, and finds little more.
pub fn take_run(
    shapes: &[Shape],
    order: &[u32],
    begin: usize,
    own: &mut Vec<RunShape>,
) -> Result<NearRun, Memory>
    requires begins { begin < length order.now }
    requires inside { slice_index order.now begin < length shapes.now }
    ensures { IfOk result (λ run. IsNearRun shapes.now order.now begin run own.new.items) }
{
    let place = order[begin] as usize;
    let first = shape_at(shapes, place);
    own.clear();
    add_shape(own, place, first.rect)?;
    let mut run = run_of(first, begin + 1);
    let mut length = half_way(first.rect);
    while run.end < order.len() && own.len() < MOST {
        let place = order[run.end] as usize;
        if shapes.len() <= place {
            break;
        }
        let shape = shape_at(shapes, place);
        length = length.saturating_add(half_way(shape.rect));
        let Some(hull) = hull_with(run, shape, length) else {
            break;
        };
        add_shape(own, place, shape.rect)?;
        run = NearRun {
            layer: run.layer,
            hull,
            end: run.end + 1,
        };
    }
    Ok(run)
}
