ghost use Rattle.std.specs.Prelude.{◌≡◌, List, ℕ, IfOk};
ghost use Rattle.net_extractor.specs.KeyPlaces.{first_place, place_under};

use crate::key_texts::KeyTexts;
use indexmap::IndexMap;
use or_geom::Memory;
use std::alloc::Global;

/// The places of keys in a list. Of equal keys the first counts.
#[derive(Drop)]
pub struct KeyPlaces<'a> {
    places: IndexMap<&'a [u8], usize>,
}

/// The places of these keys.
pub fn key_places<'a>(alloc: Global, keys: &'a KeyTexts) -> Result<KeyPlaces<'a>, Memory>
    ensures { IfOk result (λ table. (key : List ℕ) → place_under table key ≡ first_place keys.now key) }
{
    let mut places = IndexMap::new(alloc);
    let mut place = keys.len();
    // From the last to the first, so that the first of equal keys is what stays.
    while place > 0 {
        place -= 1;
        places.insert(keys.get(place), place)?;
    }
    Ok(KeyPlaces { places })
}

impl<'a> KeyPlaces<'a> {
    /// The place of the key; None where it isn't there.
    pub fn find(&self, key: &[u8]) -> Option<usize>
        ensures { result ≡ place_under self.now key.now }
    {
        self.places.get(key).copied()
    }
}
