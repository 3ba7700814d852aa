ghost use Rattle.std.specs.Prelude.{◌≡◌, ◌<◌, ◌≤◌, length, MatchOption, IfSome, [], ◌∷◌, position};
ghost use Rattle.std.specs.List.{position_or_len, list_all};
ghost use Rattle.spice_text.specs.Lines.{is_lf, without_cr};
ghost use Rattle.spice_text.specs.LogicalLines.{is_blank, counts};
ghost use Rattle.spice_text.specs.Views.{line_of, lines_after, kept_line};

use crate::source::Source;

/// A line, as it stands in the text.
#[derive(Clone, Copy)]
pub struct SourceLine<'a> {
    /// Its number, from 1.
    pub number: u64,
    /// How many bytes stand before it.
    pub before: u64,
    pub text: &'a [u8],
}

/// Where the first LF stands.
fn first_end(text: &[u8]) -> Option<usize>
    ensures { result ≡ position is_lf text.now }
{
    text.iter().position(|b| *b == b'\n')
}

/// How many bytes stand before the first line's end.
fn line_length(text: &[u8]) -> usize
    ensures { result ≡ position_or_len is_lf text.now }
{
    match first_end(text) {
        Some(index) => index,
        None => text.len(),
    }
}

/// A line without the CR that belongs to its end.
fn without_return(text: &[u8]) -> &[u8]
    ensures { result.now ≡ without_cr text.now }
{
    let Some((last, front)) = text.split_last() else {
        return text;
    };
    if *last == b'\r' {
        return front;
    }
    text
}

/// Cuts the first line off.
fn cut_line(source: Source<'_>) -> (SourceLine<'_>, Source<'_>)
    requires { 0 < length source.rest.now }
    ensures parts { lines_after source.entry ≡ kept_line (line_of result.0) (lines_after result.1) }
    ensures shorter { length result.1.rest.now < length source.entry.rest.now }
{
    let length = line_length(source.rest);
    let (text, after) = source.rest.split_at(length);
    let lines = source.lines + 1;
    let line = SourceLine {
        number: lines,
        before: source.before,
        text: without_return(text),
    };
    let before = source.before + length as u64;
    match after.split_first() {
        Some((_, rest)) => (
            line,
            Source {
                rest,
                before: before + 1,
                lines,
            },
        ),
        None => (
            line,
            Source {
                rest: after,
                before,
                lines,
            },
        ),
    }
}

fn is_space(text: &[u8]) -> bool
    ensures { result ≡ list_all is_blank text.now }
{
    text.iter().all(|b| *b == b' ' || *b == b'\t')
}

/// Whether a line is neither blank nor a comment.
fn is_counted(line: SourceLine<'_>) -> bool
    ensures { result ≡ counts (line_of line.entry) }
{
    match line.text {
        [b'*', ..] => false,
        text => !is_space(text),
    }
}

/// The next line that is neither blank nor a comment, and what follows it.
pub fn next_line(source: Source<'_>) -> Option<(SourceLine<'_>, Source<'_>)>
    ensures next { MatchOption result (lines_after source.entry ≡ []) (λ p. lines_after source.entry
        ≡ line_of p.0 ∷ lines_after p.1) }
    ensures shorter { IfSome result (λ p. length p.1.rest.now < length source.entry.rest.now) }
{
    let mut left = source;
    'lines: while !left.rest.is_empty() {
        let (line, after) = cut_line(left);
        if is_counted(line) {
            return Some((line, after));
        }
        left = after;
    }
    None
}
