ghost use Rattle.std.specs.Prelude.{◌≡◌, [], IfOk, IfSome, OnOk};
ghost use Rattle.or_geom.specs.Adds.{Adds};
ghost use Rattle.or_geom.specs.Gathering.{SomeGives};
ghost use Rattle.shape_bins.specs.Hits.{IsNearShape};
ghost use Rattle.tile_checker.specs.Firsts.{ArePlaces};
ghost use Rattle.tile_checker.specs.Candidates.{IsCandidateAt, AreCandidates, AreCandidatesOver, AreTrueCandidates};
ghost use Rattle.tile_checker.specs.Candidates.{MeetsAt};
ghost use Rattle.tile_checker.specs.Seen.{AreTrueNotes};

use crate::first::shape_at;
use crate::notes::Notes;
use or_geom::{Memory, Rect, holds};
use shape_bins::{Bins, meet};
use std::alloc::Global;

/// No longer list is kept: to look through it for each first shape would take longer than to ask the bins.
const MOST_CANDIDATES: usize = 2048;

/// A shape that may come second in a pair: its place among the shapes, and its rectangle.
#[derive(Clone, Copy)]
pub struct Candidate {
    pub place: usize,
    pub rect: Rect,
}

/// The candidates that are kept: the shapes of a layer that meet an area.
#[derive(Drop)]
pub struct KeptCandidates {
    pub layer: u16,
    pub asked: Rect,
    /// None where they are too many to be kept.
    pub list: Option<Vec<Candidate>>,
}

/// The shapes at the places, each with its place.
fn candidates_at(alloc: Global, bins: &Bins, places: &[usize]) -> Result<Vec<Candidate>, Memory>
    requires { ArePlaces bins.now places.now }
    ensures { IfOk result (λ candidates. Adds [] candidates.items (SomeGives (IsCandidateAt bins.now) places.now)) }
{
    let shapes = bins.shapes();
    let mut candidates = Vec::with_capacity(alloc, places.len())?;
    for place in places {
        candidates.push(Candidate {
            place: *place,
            rect: shape_at(shapes, *place).rect,
        })?;
    }
    Ok(candidates)
}

/// The shapes of the layer that meet the area, from their places. None where they are too many to be kept. They come in
/// the order of their left sides, since the shapes do: then most tests of one go as those of the one before.
fn list_of(
    alloc: Global,
    bins: &Bins,
    _layer: u16,
    _area: Rect,
    places: &mut Vec<usize>,
) -> Result<Option<Vec<Candidate>>, Memory>
    requires { Adds [] places.old.items (IsNearShape bins.now _layer _area) }
    ensures { IfOk result (λ list. IfSome list (λ candidates. AreCandidates bins.now _layer _area candidates.items)) }
{
    if MOST_CANDIDATES < places.len() {
        return Ok(None);
    }
    places.sort_unstable();
    Ok(Some(candidates_at(alloc, bins, places)?))
}

/// Whether what is kept is of this layer and this tile.
fn is_about(candidates: &Option<KeptCandidates>, layer: u16, tile: Rect) -> bool {
    match candidates {
        Some(kept) => kept.layer == layer && kept.asked == tile,
        None => false,
    }
}

/// Lists the layer's shapes that meet the tile, unless what is kept is of this layer and tile.
fn renew(bins: &Bins, layer: u16, tile: Rect, notes: &mut Notes) -> Result<(), Memory>
    requires seen { AreTrueNotes bins.now notes.old }
    ensures seen { AreTrueNotes bins.now notes.new }
    ensures found { notes.new.found ≡ notes.old.found }
{
    if is_about(&notes.candidates, layer, tile) {
        return Ok(());
    }
    notes.near.clear();
    bins.add_near(layer, tile, &mut notes.near)?;
    let list = list_of(notes.alloc, bins, layer, tile, &mut notes.near)?;
    notes.candidates = Some(KeptCandidates {
        layer,
        asked: tile,
        list,
    });
    Ok(())
}

/// The list that is kept, if it has all shapes of the layer that meet the area.
fn kept_over<'n>(
    _bins: &Bins,
    kept: &'n Option<KeptCandidates>,
    layer: u16,
    area: Rect,
) -> Option<&'n [Candidate]>
    requires { IfSome kept.now (AreTrueCandidates _bins.now) }
    ensures { IfSome result (λ candidates. AreCandidatesOver _bins.now layer area candidates.now) }
{
    let Some(candidates) = kept else {
        return None;
    };
    if candidates.layer != layer {
        return None;
    }
    if !holds(candidates.asked, area) {
        return None;
    }
    match &candidates.list {
        Some(list) => Some(list),
        None => None,
    }
}

/// Adds the places of those that meet the area.
fn add_places(candidates: &[Candidate], area: Rect, near: &mut Vec<usize>) -> Result<(), Memory>
    ensures { OnOk result (Adds near.old.items near.new.items (SomeGives (MeetsAt area) candidates.now)) }
{
    for candidate in candidates {
        if !meet(candidate.rect, area) {
            continue;
        }
        near.push(candidate.place)?;
    }
    Ok(())
}

/// Lists the places of the layer's shapes that meet the area. The tile's shapes of the layer are asked for once and
/// kept, and each area that lies in the tile is answered from them; the bins are asked where it doesn't, or where the
/// tile has too many.
pub fn list_candidates(
    bins: &Bins,
    layer: u16,
    tile: Rect,
    area: Rect,
    notes: &mut Notes,
) -> Result<(), Memory>
    requires seen { AreTrueNotes bins.now notes.old }
    ensures seen { AreTrueNotes bins.now notes.new }
    ensures found { notes.new.found ≡ notes.old.found }
    ensures adds { OnOk result (Adds [] notes.new.near.items (IsNearShape bins.now layer area)) }
{
    renew(bins, layer, tile, notes)?;
    notes.near.clear();
    if let Some(candidates) = kept_over(bins, &notes.candidates, layer, area) {
        return add_places(candidates, area, &mut notes.near);
    }
    bins.add_near(layer, area, &mut notes.near)
}
