ghost use Rattle.std.specs.Prelude.{◌≡◌, All, IfOk, IfSome, OnOk};
ghost use Rattle.shape_bins.specs.Filled.{IsFilledBy};
ghost use Rattle.shape_bins.specs.Runs.{IsLonger, KeepsRun, KeepsRuns, TakesLeft, GivesRun, AddsShape};

use crate::filled::{Filled, MANY, are_beside, both};
use or_geom::{Memory, Shape};
use std::alloc::Global;
use std::collections::VecDeque;

/// So many runs may grow at once, so that memory stays small where no run ends before the last shape.
const MOST_GROWING: usize = 65536;

/// A run of shapes that abut from left to right, and where the last of them begins.
#[derive(Clone, Copy)]
pub struct Run {
    pub filled: Filled,
    pub last: i64,
}

/// A shape alone.
fn single(shape: Shape) -> Run
    ensures { result.filled.shape ≡ shape }
{
    Run {
        filled: Filled { shape, count: 1 },
        last: shape.rect.x1,
    }
}

/// The run with the shape at its right end, if both fill a box.
fn longer(run: Run, shape: Shape) -> Option<Run>
    ensures { IfSome result (IsLonger run shape) }
{
    if !are_beside(run.filled.shape.rect, shape.rect) {
        return None;
    }
    let filled = both(run.filled, single(shape).filled)?;
    Some(Run {
        filled,
        last: shape.rect.x1,
    })
}

/// Whether the left neighbour of this shape, as wide as it, comes behind the last shape of the run in the order of
/// shapes. A wrong answer costs boxes that are not found.
fn is_passed(run: Run, shape: Shape) -> bool {
    let end = run.filled.shape;
    let rect = shape.rect;
    let beside = run.last.saturating_add(rect.x2.saturating_sub(rect.x1));
    (end.layer, beside, end.rect.y1) < (shape.layer, rect.x1, rect.y1)
}

/// Keeps a run that no shape makes longer, if it has many shapes.
fn keep(run: Run, ended: &mut Vec<Filled>) -> Result<(), Memory>
    ensures { OnOk result (KeepsRun run ended.old.items ended.new.items) }
{
    if run.filled.count < MANY {
        return Ok(());
    }
    Ok(ended.push(run.filled)?)
}

/// The run at whose end the shape stands, if that is the first of those that grow. If the shape has passed it, it grows
/// no more.
fn take_left(
    shape: Shape,
    growing: &mut VecDeque<Run>,
    ended: &mut Vec<Filled>,
) -> Result<Option<Run>, Memory>
    ensures { IfOk result (TakesLeft shape growing.old.items ended.old.items growing.new.items ended.new.items) }
{
    let Some(first) = growing.pop_front() else {
        return Ok(None);
    };
    if let Some(run) = longer(first, shape) {
        return Ok(Some(run));
    }
    if is_passed(first, shape) {
        keep(first, ended)?;
    } else {
        growing.push_front(first)?;
    }
    Ok(None)
}

/// The run that the shape ends. Where the first of the growing runs isn't it and grows no more, the next one is looked
/// at too: so each shape can end two runs, and the list doesn't grow while shapes pass it.
fn run_of(shape: Shape, growing: &mut VecDeque<Run>, ended: &mut Vec<Filled>) -> Result<Run, Memory>
    ensures { IfOk result (GivesRun shape growing.old.items ended.old.items growing.new.items ended.new.items) }
{
    if let Some(run) = take_left(shape, growing, ended)? {
        return Ok(run);
    }
    if let Some(run) = take_left(shape, growing, ended)? {
        return Ok(run);
    }
    Ok(single(shape))
}

/// The run that the shape ends becomes the last of those that grow.
fn add_shape(
    shape: Shape,
    growing: &mut VecDeque<Run>,
    ended: &mut Vec<Filled>,
) -> Result<(), Memory>
    ensures { OnOk result (AddsShape shape growing.old.items ended.old.items growing.new.items ended.new.items) }
{
    let run = run_of(shape, growing, ended)?;
    growing.push_back(run)?;
    if growing.len() <= MOST_GROWING {
        return Ok(());
    }
    close_first(growing, ended)?;
    Ok(())
}

/// The first of the growing runs grows no more.
fn close_first(growing: &mut VecDeque<Run>, ended: &mut Vec<Filled>) -> Result<(), Memory>
    ensures { OnOk result (KeepsRuns growing.old.items ended.old.items growing.new.items ended.new.items) }
{
    let Some(first) = growing.pop_front() else {
        return Ok(());
    };
    keep(first, ended)?;
    Ok(())
}

/// None of the runs grows any more.
fn close_all(growing: &mut VecDeque<Run>, ended: &mut Vec<Filled>) -> Result<(), Memory>
    ensures { OnOk result (KeepsRuns growing.old.items ended.old.items growing.new.items ended.new.items) }
{
    for _ in 0..growing.len() {
        close_first(growing, ended)?;
    }
    Ok(())
}

/// Runs of many shapes that abut from left to right, where the shapes come in order. Not all are found: a run may be
/// cut where its shapes, or others of its layer, differ in width. Only that the shapes fill what is listed is claimed,
/// which an empty list meets too.
pub fn runs_of(alloc: Global, shapes: &[Shape]) -> Result<Vec<Filled>, Memory>
    ensures { IfOk result (λ runs. All (IsFilledBy shapes.now) runs.items) }
{
    let mut growing = VecDeque::new(alloc);
    let mut ended = Vec::new(alloc);
    for shape in shapes {
        add_shape(*shape, &mut growing, &mut ended)?;
    }
    close_all(&mut growing, &mut ended)?;
    Ok(ended)
}
