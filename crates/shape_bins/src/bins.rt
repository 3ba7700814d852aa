ghost use Rattle.std.specs.Prelude.{◌≡◌, ◌↔◌, ◌<◌, ◌≤◌, length, IsTrue, IfOk, IfSome, MatchOption, OnOk};
ghost use Rattle.or_geom.specs.Adds.{Adds};
ghost use Rattle.or_geom.specs.Covered.{HasCellInSome, IsCovered};
ghost use Rattle.or_geom.specs.Row.{IsFound};
ghost use Rattle.shape_bins.specs.Clear.{IsClearBox};
ghost use Rattle.shape_bins.specs.Layers.{rects_on};
ghost use Rattle.shape_bins.specs.Forest.{IsForest};
ghost use Rattle.shape_bins.specs.Hits.{IsHit, IsNearShape, NoHitFrom, IsFirstHit};
ghost use Rattle.shape_bins.specs.declared.query.Query.TheVariants.{Meets, MeetsOutside, Overlaps, At};

use crate::clear::{ClearBox, clearances_of};
use crate::cover::box_covered;
use crate::filled::filled_boxes;
use crate::forest::Forest;
use crate::layers::forest_over;
use crate::query::Query;
use crate::walk::{add_near, largest_near, least_near, rect_at, some_near};
use bumpalo::Bump;
use bumpalo::collections::into_bump_slice;
use cell_hierarchy::{Flat, OneThread, Sorter};
use or_geom::{Memory, Point, Rect, Shape};
use std::alloc::Global;
use std::marker::Model;

/// Finds shapes by place. Contracts see it as the list of the shapes that it finds, each of which goes by its place in
/// the list.
#[derive(Drop)]
pub struct Bins<'b> {
    forest: Forest<'b>,
    /// Boxes that shapes of their layers fill, and the trees over them.
    boxes: Forest<'b>,
    /// The clearance of each box.
    clearances: &'b [i64],
}

impl<'b> Model for Bins<'b> {
    ghost use Rattle.std.specs.Prelude.{List};
    ghost use Rattle.or_geom.specs.declared.shape.Shape.{Shape};
    ghost use Rattle.shape_bins.specs.Filled.{AreBins};

    ghost Value = { List Shape };

    ghost view = { λ b. b.forest.shapes.now };

    ghost invariant = { λ b. AreBins b.forest b.boxes b.clearances.now };
}

impl<'b> Bins<'b> {
    /// The shapes that it finds.
    pub fn shapes(&self) -> &[Shape]
        ensures { result.now ≡ self.now }
    {
        self.forest.shapes
    }

    /// The shapes with a tree over those of each layer, for a walk that passes over more than a query does.
    pub fn forest(&self) -> Forest<'b>
        ensures shapes { result.shapes.now ≡ self.now }
        ensures forest { IsForest result }
    {
        self.forest
    }

    /// The least place, at least `from`, of a shape of the layer whose closed box meets the area.
    pub fn near(&self, layer: u16, area: Rect, from: usize) -> Option<usize>
        ensures { MatchOption result (NoHitFrom self.now layer (Meets area) from)
            (IsFirstHit self.now layer (Meets area) from) }
    {
        least_near(self.forest, layer, Query::Meets(area), from)
    }

    /// The least place of a shape of the layer whose closed box contains the point.
    pub fn first_at(&self, layer: u16, point: Point) -> Option<usize>
        ensures { MatchOption result (NoHitFrom self.now layer (At point) 0) (IsFirstHit self.now layer (At point) 0) }
    {
        least_near(self.forest, layer, Query::At(point), 0)
    }

    /// The place of one of the layer's shapes that share area with the area.
    pub fn some_over(&self, layer: u16, area: Rect) -> Option<usize>
        ensures { MatchOption result (NoHitFrom self.now layer (Overlaps area) 0)
            (IsHit self.now layer (Overlaps area)) }
    {
        some_near(self.forest, layer, Query::Overlaps(area))
    }

    /// One of the layer's rectangles that hold the unit cell with this lower left corner.
    pub fn rect_at(&self, layer: u16, cell: Point) -> Option<Rect>
        ensures { MatchOption result (HasCellInSome (rects_on layer self.now) cell.x cell.y
            → ⊥) (IsFound (rects_on layer self.now) cell) }
    {
        rect_at(self.forest, layer, cell)
    }

    /// A box that the layer covers and that holds the unit cell with this lower left corner: of those that are known
    /// the largest is taken, though nothing is claimed of its size. None says nothing: only boxes are known that many
    /// shapes fill together.
    pub fn filled_at(&self, layer: u16, cell: Point) -> Option<ClearBox>
        ensures { IfSome result (IsClearBox self.now layer cell) }
    {
        let place = largest_near(self.boxes, layer, Query::Holds(cell))?;
        let rect = self.boxes.shapes[place].rect;
        let clearance = self.clearances[place];
        Some(ClearBox { rect, clearance })
    }

    /// Whether each unit cell of the area lies in some shape of the layer.
    pub fn box_covered(&self, layer: u16, area: Rect) -> bool
        ensures { IsTrue result ↔ IsCovered area (rects_on layer self.now) }
    {
        box_covered(self, layer, area)
    }

    /// Adds the places of all shapes of the layer whose closed box meets the area.
    pub fn add_near(&self, layer: u16, area: Rect, out: &mut Vec<usize>) -> Result<(), Memory>
        ensures { OnOk result (Adds out.old.items out.new.items (IsNearShape self.now layer area)) }
    {
        add_near(self.forest, layer, Query::Meets(area), out)
    }

    /// Adds the places of the layer's shapes whose closed box meets the area and that `held` doesn't contain.
    pub fn add_outside(
        &self,
        layer: u16,
        area: Rect,
        held: Rect,
        out: &mut Vec<usize>,
    ) -> Result<(), Memory>
        ensures { OnOk result (Adds out.old.items out.new.items (IsHit self.now layer (MeetsOutside area held))) }
    {
        add_near(self.forest, layer, Query::MeetsOutside { area, held }, out)
    }
}

/// The bins of a flat layout's shapes, in the arena.
pub fn index<'b>(alloc: Global, bump: &'b Bump, flat: &Flat<'b>) -> Result<Bins<'b>, Memory>
    requires { length flat.now.shapes.now ≤ 4294967295 }
    ensures { IfOk result (λ bins. bins ≡ flat.now.shapes.now) }
{
    index_by(&OneThread, alloc, bump, flat)
}

/// The bins that `index` makes, for which this sorter sorts the shapes' places.
pub fn index_by<'b, S: Sorter>(
    sorter: &S,
    alloc: Global,
    bump: &'b Bump,
    flat: &Flat<'b>,
) -> Result<Bins<'b>, Memory>
    requires ready { S.ready sorter.now }
    requires few { length flat.now.shapes.now ≤ 4294967295 }
    ensures { IfOk result (λ bins. bins ≡ flat.now.shapes.now) }
{
    let forest = forest_over(sorter, alloc, bump, flat.shapes)?;
    let boxes = into_bump_slice(filled_boxes(alloc, bump, flat.shapes)?);
    let boxes = forest_over(sorter, alloc, bump, boxes)?;
    let clearances = into_bump_slice(clearances_of(bump, forest, boxes.shapes)?);
    Ok(Bins {
        forest,
        boxes,
        clearances,
    })
}

fn share<T: Sync>(_shared: &T) {}

/// Bins may be read by several threads at once.
pub fn bins_are_shared(bins: &Bins) {
    share(bins);
}
