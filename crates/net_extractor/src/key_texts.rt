ghost use Rattle.std.specs.Prelude.{◌≡◌, ◌∷◌, ◌<◌, length, slice_get, slice_index_or, Some};
ghost use Rattle.net_extractor.specs.KeyTexts.{AreEndsTo, texts_from};

use std::marker::Model;

/// Keys, one after another in one buffer, and where each ends. Contracts see the list of the keys.
#[derive(Drop)]
pub struct KeyTexts {
    bytes: Vec<u8>,
    ends: Vec<usize>,
}

impl Model for KeyTexts {
    ghost use Rattle.std.specs.Prelude.{List, ℕ, length};
    ghost use Rattle.net_extractor.specs.KeyTexts.{AreEndsTo, texts_from};

    ghost Value = { List (List ℕ) };

    ghost view = { λ k. texts_from k.bytes.items 0 k.ends.items };

    ghost invariant = { λ k. AreEndsTo (length k.bytes.items) 0 k.ends.items };
}

/// Where the key at the place begins: where the one before it ends.
fn start_of(ends: &[usize], place: usize) -> usize
    requires { place < length ends.now }
    ensures { result ≡ slice_index_or (0 ∷ ends.now) place 0 }
{
    if place == 0 {
        return 0;
    }
    ends[place - 1]
}

/// The key at the place.
fn text_at<'a>(bytes: &'a [u8], ends: &[usize], place: usize) -> &'a [u8]
    requires ends { AreEndsTo (length bytes.now) 0 ends.now }
    requires inside { place < length ends.now }
    ensures { slice_get (texts_from bytes.now 0 ends.now) place ≡ Some result.now }
{
    &bytes[start_of(ends, place)..ends[place]]
}

impl KeyTexts {
    /// The keys that stand in the bytes and end at these places.
    pub fn from_parts(bytes: Vec<u8>, ends: Vec<usize>) -> KeyTexts
        requires { AreEndsTo (length bytes.items) 0 ends.items }
        ensures { result ≡ texts_from bytes.items 0 ends.items }
    {
        KeyTexts { bytes, ends }
    }

    /// How many keys there are.
    pub fn len(&self) -> usize
        ensures { result ≡ length self.now }
    {
        self.ends.len()
    }

    /// The key at the place.
    pub fn get(&self, place: usize) -> &[u8]
        requires { place < length self.now }
        ensures { slice_get self.now place ≡ Some result.now }
    {
        text_at(&self.bytes, &self.ends, place)
    }
}
