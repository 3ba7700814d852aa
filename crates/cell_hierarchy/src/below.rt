ghost use Rattle.std.specs.Prelude.{IfOk};
ghost use Rattle.std.specs.List.{AllByRecursion};
ghost use Rattle.gds_library.specs.Writable.{IsWritableCell};
ghost use Rattle.cell_chains.specs.Hierarchy.{AreCells};
ghost use Rattle.cell_hierarchy.specs.Counts.{AreCountsWithin, AreAllOwnCounts};

use crate::arithmetic::sum_of;
use crate::counts::SaturatedCounts;
use crate::references::below;
use cell_chains::Cell;
use gds_library::Structure;
use or_geom::{Memory, Name};
use std::alloc::Global;
use tech_rules::Layer;

/// How many shapes and labels stand below the top, counted once for each way that leads to them. `cells` are
/// structures from the bottom up, the top's last, and `own` has for each of them what its elements draw themselves.
pub fn counts_below(
    alloc: Global,
    _layers: &[Layer],
    structs: &[Structure],
    _top: &Name,
    cells: &[Cell],
    own: &[SaturatedCounts],
) -> Result<SaturatedCounts, Memory>
    requires writable { AllByRecursion IsWritableCell structs.now }
    requires cells { AreCells structs.now _top.now cells.now }
    requires own { AreAllOwnCounts _layers.now structs.now cells.now own.now }
    ensures { IfOk result (AreCountsWithin 32 _layers.now structs.now _top.now) }
{
    let mut counts = Vec::new(alloc);
    for (place, cell) in cells.iter().enumerate() {
        let elements = structs[cell.structure].elements.as_slice();
        let drawn = own[place];
        let referred = below(elements, cell.targets.as_slice(), &counts);
        counts.push(sum_of(drawn, referred))?;
    }
    Ok(counts[cells.len() - 1])
}
