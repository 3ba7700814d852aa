ghost use Rattle.std.specs.Prelude.{◌≡◌, ◌≤◌, [], length, IfOk, IfErr};
ghost use Rattle.std.specs.List.{AllByRecursion};
ghost use Rattle.gds_library.specs.Writable.{IsWritable, IsWritableCell};
ghost use Rattle.cell_hierarchy.specs.FlatLists.{AreFlatShapes, AreFlatLists, IsFault};
ghost use Rattle.cell_hierarchy.specs.Plain.{lists_of};
ghost use Rattle.cell_hierarchy.specs.Settled.{IsFlatKept};

use crate::count::checked_counts;
use crate::fault::FlattenFault;
use crate::flat::Flat;
use crate::parts::parts_of;
use crate::sorted::sorted_flat;
use crate::sorter::{OneThread, Sorter};
use crate::top::top_drawing;
use crate::tree::Tree;
use bumpalo::Bump;
use cell_chains::cells_below;
use gds_library::{Library, Structure};
use or_geom::Name;
use std::alloc::Global;
use tech_rules::{Layer, Tech};

/// The flat layout of a structure on these layers, with its labels where they are to be kept.
fn flat_of<'b, S: Sorter>(
    sorter: &S,
    alloc: Global,
    bump: &'b Bump,
    layers: &[Layer],
    structs: &[Structure],
    top: &Name,
    keeps_labels: bool,
) -> Result<Flat<'b>, FlattenFault>
    requires ready { S.ready sorter.now }
    requires few { length layers.now ≤ 64 }
    requires writable { AllByRecursion IsWritableCell structs.now }
    ensures flat { IfOk result (IsFlatKept layers.now keeps_labels structs.now top.now) }
    ensures fault { IfErr result (IsFault layers.now structs.now top.now) }
{
    let cells = cells_below(alloc, structs, top)?;
    let parts = parts_of(alloc, bump, layers, structs, &cells, keeps_labels)?;
    let tree = Tree {
        layers,
        structs,
        cells: &cells,
        parts: &parts,
        keeps_labels,
    };
    let counts = checked_counts(alloc, &tree, top)?;
    let gathered = top_drawing(alloc, bump, &tree, top, counts)?;
    sorted_flat(sorter, gathered)
}

/// The flat layout of a structure: its own shapes and labels and those of all structures that it reaches, each turned,
/// moved and named by the instances on the way. Errors come in the order of the variants of `FlattenFault`; `Memory`
/// may come in place of each.
pub fn flatten<'b>(
    alloc: Global,
    bump: &'b Bump,
    lib: &Library,
    tech: &Tech,
    top: &Name,
) -> Result<Flat<'b>, FlattenFault>
    requires writable { IsWritable lib.now }
    requires few { length tech.now.layers ≤ 64 }
    ensures flat { IfOk result (λ flat. AreFlatLists tech.now.layers lib.now.structs top.now (lists_of flat)) }
    ensures fault { IfErr result (IsFault tech.now.layers lib.now.structs top.now) }
{
    flatten_by(&OneThread, alloc, bump, lib, tech, top)
}

/// What `flatten` gives, sorted by this sorter.
pub fn flatten_by<'b, S: Sorter>(
    sorter: &S,
    alloc: Global,
    bump: &'b Bump,
    lib: &Library,
    tech: &Tech,
    top: &Name,
) -> Result<Flat<'b>, FlattenFault>
    requires ready { S.ready sorter.now }
    requires writable { IsWritable lib.now }
    requires few { length tech.now.layers ≤ 64 }
    ensures flat { IfOk result (λ flat. AreFlatLists tech.now.layers lib.now.structs top.now (lists_of flat)) }
    ensures fault { IfErr result (IsFault tech.now.layers lib.now.structs top.now) }
{
    flat_of(
        sorter,
        alloc,
        bump,
        tech.layers.as_slice(),
        lib.structs.as_slice(),
        top,
        true,
    )
}

/// The flat shapes of a structure, for a check: what `flatten` refuses is refused alike, but no labels are kept.
pub fn flatten_shapes<'b>(
    alloc: Global,
    bump: &'b Bump,
    lib: &Library,
    tech: &Tech,
    top: &Name,
) -> Result<Flat<'b>, FlattenFault>
    requires writable { IsWritable lib.now }
    requires few { length tech.now.layers ≤ 64 }
    ensures shapes { IfOk result (λ flat. AreFlatShapes tech.now.layers lib.now.structs top.now flat.shapes.now) }
    ensures none { IfOk result (λ flat. flat.labels.now ≡ []) }
    ensures fault { IfErr result (IsFault tech.now.layers lib.now.structs top.now) }
{
    flatten_shapes_by(&OneThread, alloc, bump, lib, tech, top)
}

/// What `flatten_shapes` gives, sorted by this sorter.
pub fn flatten_shapes_by<'b, S: Sorter>(
    sorter: &S,
    alloc: Global,
    bump: &'b Bump,
    lib: &Library,
    tech: &Tech,
    top: &Name,
) -> Result<Flat<'b>, FlattenFault>
    requires ready { S.ready sorter.now }
    requires writable { IsWritable lib.now }
    requires few { length tech.now.layers ≤ 64 }
    ensures shapes { IfOk result (λ flat. AreFlatShapes tech.now.layers lib.now.structs top.now flat.shapes.now) }
    ensures none { IfOk result (λ flat. flat.labels.now ≡ []) }
    ensures fault { IfErr result (IsFault tech.now.layers lib.now.structs top.now) }
{
    flat_of(
        sorter,
        alloc,
        bump,
        tech.layers.as_slice(),
        lib.structs.as_slice(),
        top,
        false,
    )
}
