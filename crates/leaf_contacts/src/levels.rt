ghost use Rattle.std.specs.Prelude.{◌<◌, suc, [], IfOk};
ghost use Rattle.leaf_contacts.specs.Stands.{AreStandsAt, AreStandsBelow, IsStandOf, AreReachedCells};

use crate::cells::ReachedCells;
use crate::references::{add_below, instance_below};
use crate::stand::{ReferenceStep, Stand};
use bumpalo::Bump;
use or_geom::{Memory, Orient, Place, Point};
use std::alloc::Global;

/// No chain has more references.
const DEEPEST: u32 = 32;

/// The cells that stand directly below these, to which so many references lead.
fn level_below<'b>(
    alloc: Global,
    bump: &'b Bump,
    tree: &ReachedCells,
    level: &[Stand<'b>],
    _depth: u32,
) -> Result<Vec<Stand<'b>>, Memory>
    requires tree { AreReachedCells tree.now }
    requires level { AreStandsAt tree.now _depth level.now }
    requires shallow { _depth < 32 }
    ensures { IfOk result (λ below. AreStandsAt tree.now (suc _depth) below.items) }
{
    let mut below = Vec::new(alloc);
    for outer in level {
        add_below(alloc, bump, tree, outer, &mut below)?;
    }
    Ok(below)
}

/// Where the top itself stands; it is the last of the cells.
fn top_stand<'b>(bump: &'b Bump, tree: &ReachedCells) -> Result<Stand<'b>, Memory>
    requires { AreReachedCells tree.now }
    ensures { IfOk result (IsStandOf tree.now []) }
{
    let cell = tree.cells.len() - 1;
    let steps: &'b [ReferenceStep] = bump.try_alloc_slice_copy(&[])?;
    Ok(Stand {
        cell,
        place: Place {
            orient: Orient::R0,
            at: Point { x: 0, y: 0 },
        },
        steps,
        instance: instance_below(None, tree.summaries[cell].is_leaf, steps),
    })
}

/// Where all cells stand that the top reaches and that count: the top, the cells directly below it, and so on.
pub fn stands_of<'b>(
    alloc: Global,
    bump: &'b Bump,
    tree: &ReachedCells,
) -> Result<Vec<Stand<'b>>, Memory>
    requires tree { AreReachedCells tree.now }
    ensures { IfOk result (λ stands. AreStandsBelow tree.now 33 stands.items) }
{
    let mut stands = Vec::new(alloc);
    let mut level = Vec::new(alloc);
    let top = top_stand(bump, tree)?;
    level.push(top)?;
    for depth in 0..DEEPEST {
        let below = level_below(alloc, bump, tree, &level, depth)?;
        stands.extend_from_slice(&level)?;
        level = below;
    }
    stands.extend_from_slice(&level)?;
    Ok(stands)
}
