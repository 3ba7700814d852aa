ghost use Rattle.std.specs.Prelude.{◌≡◌, Contains, IsTrue, Some, slice_get};
ghost use Rattle.std.specs.List.Sorted.{IsStrictlySortedBy};
ghost use Rattle.or_geom.specs.ShapeOrder.{shape_order};

use crate::touching::is_same;
use or_geom::{Memory, Shape};
use std::alloc::Global;

/// Of how many shapes that a cell draws places are kept. Leaf cells draw some tens; more only cost a search each.
const SHAPES_KEPT: usize = 1024;

/// Where a shape of a cell was found last, and where the time before.
#[derive(Clone, Copy)]
struct LastPlaces {
    last: usize,
    before: usize,
}

/// Where the shapes of the cells that were met last stand in the flat layout, by their numbers in the cell. The items
/// of an array come one after another, and the places of their shapes are mostly equally far apart, so that the next is
/// guessed from the last two. It is a guess: nothing stands on its being right.
#[derive(Drop)]
pub struct FoundPlaces {
    places: Vec<LastPlaces>,
}

impl FoundPlaces {
    /// No place is known.
    pub fn new(alloc: Global) -> Result<FoundPlaces, Memory> {
        let none = LastPlaces { last: 0, before: 0 };
        let places = vec![in alloc; none; SHAPES_KEPT]?;
        Ok(FoundPlaces { places })
    }

    /// Where the shape of this number is likely to be found next.
    pub fn next_place(&self, number: usize) -> usize {
        match self.places.get(number) {
            Some(places) => places
                .last
                .wrapping_add(places.last.wrapping_sub(places.before)),
            None => 0,
        }
    }

    /// Keeps where the shape of this number was found.
    pub fn keep_place(&mut self, number: usize, place: usize) {
        if let Some(places) = self.places.get_mut(number) {
            *places = LastPlaces {
                last: place,
                before: places.last,
            };
        }
    }
}

/// Whether the shape stands at this place of the list.
fn is_at(shapes: &[Shape], place: usize, shape: Shape) -> bool
    ensures { IsTrue result → slice_get shapes.now place ≡ Some shape }
{
    match shapes.get(place) {
        Some(other) => is_same(*other, shape),
        None => false,
    }
}

/// The place of a shape that stands in the list: the guess if that is right, else by a binary search.
pub fn place_of(shapes: &[Shape], shape: Shape, guess: usize) -> usize
    requires rises { IsStrictlySortedBy shape_order shapes.now }
    requires listed { Contains shapes.now shape }
    ensures { slice_get shapes.now result ≡ Some shape }
{
    if is_at(shapes, guess, shape) {
        return guess;
    }
    match shapes.binary_search(&shape) {
        Ok(place) => place,
        Err(_) => unreachable!(),
    }
}
