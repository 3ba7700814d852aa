ghost use Rattle.std.specs.Prelude.{◌≡◌, ◌↔◌, ◌^◌, min, length, IsTrue, IfOk, IfErr, OnOk};
ghost use Rattle.cell_chains.specs.Hierarchy.{AreCells};
ghost use Rattle.cell_hierarchy.specs.Counts.{AreAllOwnCounts, AreCountsWithin};
ghost use Rattle.cell_hierarchy.specs.Drawings.{AreAllCells, AreCellParts};
ghost use Rattle.cell_hierarchy.specs.FlatLists.{HasFew};
ghost use Rattle.cell_hierarchy.specs.Parts.{IsCellTree};
ghost use Rattle.cell_hierarchy.specs.Settled.{AreCountsOf, AreOver, IsManyFault};

use crate::below::counts_below;
use crate::counts::SaturatedCounts;
use crate::fault::FlattenFault;
use crate::parts::CellPart;
use crate::tree::Tree;
use or_geom::{Memory, Name};
use std::alloc::Global;

/// A count as far as it is told: 2^32 stands for more.
fn saturated(count: usize) -> u64
    ensures { result ≡ min count (2 ^ 32) }
{
    if count > 4_294_967_296 {
        return 4_294_967_296;
    }
    count as u64
}

/// How much a cell draws itself.
fn counts_of(part: &CellPart) -> SaturatedCounts
    ensures { AreCountsOf part.now result }
{
    SaturatedCounts {
        shapes: saturated(part.own.shapes.len()),
        labels: saturated(part.own.points.len()),
    }
}

/// How much each cell draws itself.
fn own_counts(alloc: Global, tree: &Tree) -> Result<Vec<SaturatedCounts>, Memory>
    requires parts { AreCellParts tree.now.layers.now tree.now.keeps_labels tree.now.structs.now tree.now.cells.now
        (length tree.now.cells.now) tree.now.parts.now }
    requires cells { AreAllCells tree.now.structs.now tree.now.cells.now }
    ensures { IfOk result (λ counts. AreAllOwnCounts tree.now.layers.now tree.now.structs.now tree.now.cells.now
        counts.items) }
{
    let mut counts = Vec::with_capacity(alloc, tree.cells.len())?;
    for index in 0..tree.cells.len() {
        counts.push(counts_of(&tree.parts[index]))?;
    }
    Ok(counts)
}

fn are_over(counts: SaturatedCounts) -> bool
    ensures { IsTrue result ↔ AreOver counts }
{
    if counts.shapes > 16_777_216 {
        return true;
    }
    counts.labels > 4_194_304
}

/// How many shapes and labels stand below the top, before equal ones are merged. Refuses more than 2^24 shapes or 2^22
/// labels.
pub fn checked_counts(
    alloc: Global,
    tree: &Tree,
    top: &Name,
) -> Result<SaturatedCounts, FlattenFault>
    requires tree { IsCellTree tree.now }
    requires cells { AreCells tree.now.structs.now top.now tree.now.cells.now }
    ensures counts { IfOk result (AreCountsWithin 32 tree.now.layers.now tree.now.structs.now top.now) }
    ensures few { OnOk result (HasFew tree.now.layers.now tree.now.structs.now top.now) }
    ensures many { IfErr result (IsManyFault tree.now.layers.now tree.now.structs.now top.now) }
{
    let own = own_counts(alloc, tree)?;
    let below = counts_below(alloc, tree.layers, tree.structs, top, tree.cells, &own)?;
    if are_over(below) {
        return Err(FlattenFault::TooMany {
            shapes: below.shapes,
            labels: below.labels,
        });
    }
    Ok(below)
}
