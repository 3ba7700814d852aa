ghost use Rattle.std.specs.Prelude.{◌≡◌, ◌<◌, length, MatchOption, IfOk, OnOk, IfSome, [], ◌∷◌};
ghost use Rattle.spice_text.specs.LogicalLines.{continues, join, joined};
ghost use Rattle.spice_text.specs.Views.{line_of, logical_of, lines_after};

use crate::line::{SourceLine, next_line};
use crate::source::Source;
use or_geom::Memory;
use std::alloc::Global;

/// A line together with the `+` lines that continue it.
#[derive(Drop)]
pub struct LogicalLine {
    /// The number of its first line, from 1.
    pub number: u64,
    /// How many bytes stand before it.
    pub before: u64,
    pub text: Vec<u8>,
}

fn is_continuation(line: SourceLine<'_>) -> bool
    ensures { result ≡ continues (line_of line.entry) }
{
    match line.text {
        [b'+', ..] => true,
        _ => false,
    }
}

fn begun(alloc: Global, line: SourceLine<'_>) -> Result<LogicalLine, Memory>
    ensures { IfOk result (λ logical. logical_of logical ≡ line_of line.entry) }
{
    let text = Vec::from_slice(alloc, line.text)?;
    Ok(LogicalLine {
        number: line.number,
        before: line.before,
        text,
    })
}

/// Joins a `+` line on: one space stands in place of the line's end and the `+`.
fn join_on(logical: &mut LogicalLine, line: SourceLine<'_>) -> Result<(), Memory>
    ensures { OnOk result (logical_of logical.new ≡ joined (logical_of logical.old) (line_of line.entry)) }
{
    logical.text.push(b' ')?;
    if let Some((_, others)) = line.text.split_first() {
        logical.text.extend_from_slice(others)?;
    }
    Ok(())
}

/// The next logical line, and what follows it.
pub fn next_logical(
    alloc: Global,
    source: Source<'_>,
) -> Result<Option<(LogicalLine, Source<'_>)>, Memory>
    ensures next { IfOk result (λ next. MatchOption next (join (lines_after source.entry) ≡ [])
        (λ p. join (lines_after source.entry) ≡ logical_of p.0 ∷ join (lines_after p.1))) }
    ensures shorter { IfOk result (λ next. IfSome next (λ p. length p.1.rest.now < length source.entry.rest.now)) }
{
    let Some((first, after)) = next_line(source) else {
        return Ok(None);
    };
    let mut logical = begun(alloc, first)?;
    let mut left = after;
    'lines: while let Some((line, after)) = next_line(left) {
        if !is_continuation(line) {
            return Ok(Some((logical, left)));
        }
        join_on(&mut logical, line)?;
        left = after;
    }
    Ok(Some((logical, left)))
}
