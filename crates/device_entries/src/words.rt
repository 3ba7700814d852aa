ghost use Rattle.std.specs.Prelude.{◌≡◌, ◌≤◌, IfOk, length, position, take};
ghost use Rattle.std.specs.List.{position_or_len};
ghost use Rattle.spice_text.specs.LogicalLines.{is_blank};
ghost use Rattle.spice_text.specs.Words.{words_of, lower, is_assignment, before_assignment};

use or_geom::{Memory, Name};
use std::alloc::Global;

fn is_space(byte: u8) -> bool
    ensures { result ≡ is_blank byte }
{
    byte == b' ' || byte == b'\t'
}

/// Where the first space or tab stands.
fn first_space(text: &[u8]) -> Option<usize>
    ensures { result ≡ position is_blank text.now }
{
    text.iter().position(|b| *b == b' ' || *b == b'\t')
}

/// How many bytes stand before the first space or tab.
fn word_length(text: &[u8]) -> usize
    ensures { result ≡ position_or_len is_blank text.now }
{
    match first_space(text) {
        Some(index) => index,
        None => text.len(),
    }
}

/// The words of a text, in their order.
fn words_in(alloc: Global, text: &[u8]) -> Result<Vec<Name>, Memory>
    ensures { IfOk result (λ words. words.items ≡ words_of text.now) }
{
    let mut words = Vec::new(alloc);
    let mut left = text;
    'bytes: while let Some((first, others)) = left.split_first() {
        if is_space(*first) {
            left = others;
            continue;
        }
        let (word, after) = left.split_at(word_length(left));
        words.push(Name::from_bytes(alloc, word)?)?;
        left = after;
    }
    Ok(words)
}

/// The words of a line, in lower case.
pub fn lower_words(alloc: Global, line: &[u8]) -> Result<Vec<Name>, Memory>
    ensures { IfOk result (λ words. words.items ≡ words_of (lower line.now)) }
{
    let lower = line.to_ascii_lowercase(alloc)?;
    words_in(alloc, &lower)
}

fn holds_equals(word: &[u8]) -> bool
    ensures { result ≡ is_assignment word.now }
{
    word.iter().any(|b| *b == b'=')
}

/// How many words stand before the first that holds `=`.
pub fn plain_count(words: &[Name]) -> usize
    ensures inside { result ≤ length words.now }
    ensures front { take result words.now ≡ before_assignment words.now }
{
    for (index, word) in words.iter().enumerate() {
        if holds_equals(word.as_bytes()) {
            return index;
        }
    }
    words.len()
}
