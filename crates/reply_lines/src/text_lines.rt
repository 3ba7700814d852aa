ghost use Rattle.std.specs.Prelude.{◌≡◌, ◌∷◌, ◌<◌, length, slice_get, slice_index_or, Some};
ghost use Rattle.net_extractor.specs.KeyTexts.{AreEndsTo, texts_from};

use crate::line::ReplyLine;
use std::marker::Model;

/// Lines that stand one after another in one buffer, and where each ends: a list of nets may have millions, too many
/// for a buffer of each. Contracts see them as the list of their bytes.
#[derive(Debug, Drop)]
pub struct TextLines {
    text: ReplyLine,
    ends: Vec<usize>,
}

impl Model for TextLines {
    ghost use Rattle.std.specs.Prelude.{List, ℕ, length};
    ghost use Rattle.net_extractor.specs.KeyTexts.{AreEndsTo, texts_from};

    ghost Value = { List (List ℕ) };

    ghost view = { λ l. texts_from l.text 0 l.ends.items };

    ghost invariant = { λ l. AreEndsTo (length l.text) 0 l.ends.items };
}

/// Where the line at the place begins: where the one before it ends.
fn start_of(ends: &[usize], place: usize) -> usize
    requires { place < length ends.now }
    ensures { result ≡ slice_index_or (0 ∷ ends.now) place 0 }
{
    if place == 0 {
        return 0;
    }
    ends[place - 1]
}

/// The line at the place.
fn line_at<'a>(text: &'a [u8], ends: &[usize], place: usize) -> &'a [u8]
    requires ends { AreEndsTo (length text.now) 0 ends.now }
    requires inside { place < length ends.now }
    ensures { slice_get (texts_from text.now 0 ends.now) place ≡ Some result.now }
{
    &text[start_of(ends, place)..ends[place]]
}

impl TextLines {
    /// The lines that stand in the text and end at these places.
    pub(crate) fn from_parts(text: ReplyLine, ends: Vec<usize>) -> Self
        requires { AreEndsTo (length text) 0 ends.items }
        ensures { result ≡ texts_from text 0 ends.items }
    {
        TextLines { text, ends }
    }

    /// How many lines there are.
    pub fn len(&self) -> usize
        ensures { result ≡ length self.now }
    {
        self.ends.len()
    }

    /// The line at the place.
    pub fn get(&self, place: usize) -> &[u8]
        requires { place < length self.now }
        ensures { slice_get self.now place ≡ Some result.now }
    {
        line_at(self.text.as_bytes(), &self.ends, place)
    }
}
