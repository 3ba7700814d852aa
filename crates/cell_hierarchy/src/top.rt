ghost use Rattle.std.specs.Prelude.{IfOk};
ghost use Rattle.cell_chains.specs.Hierarchy.{AreCells};
ghost use Rattle.cell_hierarchy.specs.Counts.{AreCountsWithin};
ghost use Rattle.cell_hierarchy.specs.Parts.{IsCellTree};
ghost use Rattle.cell_hierarchy.specs.Settled.{IsTopDrawing};

use crate::counts::SaturatedCounts;
use crate::gathered::{Gathered, nothing_gathered};
use crate::placement::Placement;
use crate::tree::Tree;
use crate::walk::add_cell;
use bumpalo::Bump;
use or_geom::{Memory, Name, Orient, Place, Point};
use std::alloc::Global;

/// What the top draws with all cells below it; it is the last of the cells. `counts` is how much that is, and room is
/// made for it.
pub fn top_drawing<'b>(
    alloc: Global,
    bump: &'b Bump,
    tree: &Tree<'_, 'b>,
    _top: &Name,
    counts: SaturatedCounts,
) -> Result<Gathered<'b>, Memory>
    requires tree { IsCellTree tree.now }
    requires cells { AreCells tree.now.structs.now _top.now tree.now.cells.now }
    requires counts { AreCountsWithin 32 tree.now.layers.now tree.now.structs.now _top.now counts }
    ensures { IfOk result (IsTopDrawing tree.now.layers.now tree.now.keeps_labels tree.now.structs.now _top.now) }
{
    let at = Placement {
        path: "",
        place: Place {
            orient: Orient::R0,
            at: Point { x: 0, y: 0 },
        },
    };
    let mut gathered = nothing_gathered(alloc, bump, counts, tree.keeps_labels)?;
    add_cell(alloc, bump, tree, tree.cells.len() - 1, &at, &mut gathered)?;
    Ok(gathered)
}
