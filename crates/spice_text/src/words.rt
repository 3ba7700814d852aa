ghost use Rattle.std.specs.Prelude.{◌≡◌, IfOk, position, map, ◌∷◌};
ghost use Rattle.std.specs.Char.{to_ascii_lowercase};
ghost use Rattle.std.specs.List.{position_or_len};
ghost use Rattle.spice_text.specs.LogicalLines.{is_blank};
ghost use Rattle.spice_text.specs.Words.{words_of};

use or_geom::{Memory, Name};
use std::alloc::Global;

/// The bytes with their letters in lower case.
pub fn lowered(alloc: Global, bytes: &[u8]) -> Result<Vec<u8>, Memory>
    ensures { IfOk result (λ lower. lower.items ≡ map to_ascii_lowercase bytes.now) }
{
    let mut lower = Vec::from_slice(alloc, bytes)?;
    lower.as_mut_slice().make_ascii_lowercase();
    Ok(lower)
}

fn is_space(byte: u8) -> bool
    ensures { result ≡ is_blank byte }
{
    byte == b' ' || byte == b'\t'
}

/// Where the first space or tab stands.
fn first_space(text: &[u8]) -> Option<usize>
    ensures { result ≡ position is_blank text.now }
{
    text.iter().position(|b| *b == b' ' || *b == b'\t')
}

/// How many bytes stand before the first space or tab.
fn word_length(text: &[u8]) -> usize
    ensures { result ≡ position_or_len is_blank text.now }
{
    match first_space(text) {
        Some(index) => index,
        None => text.len(),
    }
}

/// The words of a text, in their order.
pub fn words_in(alloc: Global, text: &[u8]) -> Result<Vec<Name>, Memory>
    ensures { IfOk result (λ words. words.items ≡ words_of text.now) }
{
    let mut words = Vec::new(alloc);
    let mut left = text;
    'bytes: while let Some((first, others)) = left.split_first() {
        if is_space(*first) {
            left = others;
            continue;
        }
        let (word, after) = left.split_at(word_length(left));
        words.push(Name::from_bytes(alloc, word)?)?;
        left = after;
    }
    Ok(words)
}
