ghost use Rattle.std.specs.Prelude.{◌≡◌, None, not, position, length, filter, Ok, IfOk, IfErr};
ghost use Rattle.spice_text.specs.Deck.{deck, deck_after, start, finished, is_text_byte};
ghost use Rattle.spice_text.specs.Steps.{stops};
ghost use Rattle.spice_text.specs.Faults.{IsSpiceAnswer, IsSpiceFault};
ghost use Rattle.spice_text.specs.LogicalLines.{counts, logical_lines};
ghost use Rattle.spice_text.specs.Lines.{lines_of};
ghost use Rattle.spice_text.specs.Views.{lines_after};
ghost use Rattle.spice_text.specs.ReaderViews.{said, current_of, so_far, deck_of, HasNames};

use crate::fault::SpiceFault;
use crate::logical::next_logical;
use crate::name_set::NameSet;
use crate::reading::read_line;
use crate::source::Source;
use crate::statement::{Statement, read_statement};
use crate::subcircuit::Reading;
use netlist::Deck;
use or_geom::Items;
use std::alloc::Global;

/// The first byte that no text has.
fn first_foreign(bytes: &[u8]) -> Option<usize>
    ensures { result ≡ position (λ b. not (is_text_byte b)) bytes.now }
{
    bytes.iter().position(|b| !is_plain(*b))
}

fn is_plain(byte: u8) -> bool
    ensures { result ≡ is_text_byte byte }
{
    (32 <= byte && byte <= 126) || byte == b'\t' || byte == b'\n' || byte == b'\r'
}

/// Whether a line that says this ends the text.
fn is_stop(reading: &Reading, statement: &Statement) -> bool
    ensures { result ≡ stops (current_of reading.now.current) (said statement.now) }
{
    if reading.current.is_some() {
        return false;
    }
    match statement {
        Statement::Stop => true,
        _ => false,
    }
}

/// Where the text ends, unless a subcircuit is still open there.
fn ended(reading: &Reading, used: u64) -> Result<u64, SpiceFault>
    ensures { IsSpiceAnswer (deck_of reading.now) result
        (finished used reading.now.done (current_of reading.now.current)) }
{
    match &reading.current {
        None => Ok(used),
        Some(current) => Err(SpiceFault::Unclosed { line: current.line }),
    }
}

/// All of a text.
fn whole(bytes: &[u8]) -> Source<'_>
    ensures { lines_after result ≡ filter counts (lines_of bytes.now) }
{
    Source {
        rest: bytes,
        before: 0,
        lines: 0,
    }
}

/// Reads the lines of a text without foreign bytes, and tells where it ends.
fn read_lines(alloc: Global, reading: &mut Reading, bytes: &[u8]) -> Result<u64, SpiceFault>
    requires { HasNames reading.old }
    ensures { IsSpiceAnswer (deck_of reading.new) result
        (deck_after (length bytes.now) (so_far reading.old) (logical_lines (lines_of bytes.now))) }
{
    let mut left = whole(bytes);
    'lines: while let Some((line, after)) = next_logical(alloc, left)? {
        let statement = read_statement(alloc, line.text.as_slice())?;
        if is_stop(reading, &statement) {
            return ended(reading, line.before);
        }
        read_line(alloc, reading, &line, statement)?;
        left = after;
    }
    ended(reading, bytes.len() as u64)
}

/// The deck of a text without foreign bytes.
fn read_deck(alloc: Global, bytes: &[u8]) -> Result<Deck, SpiceFault>
    ensures { IsSpiceAnswer (λ d. d) result (deck_after (length bytes.now) start (logical_lines (lines_of bytes.now))) }
{
    let mut reading = Reading {
        done: Items::new(alloc),
        names: NameSet::new(alloc),
        current: None,
    };
    let used = read_lines(alloc, &mut reading, bytes)?;
    Ok(Deck {
        subckts: reading.done,
        used,
    })
}

/// Reads the subcircuits of a SPICE text.
///
/// Lines end by LF or CRLF. Blank lines and lines that begin with `*` are dropped, and a line that begins with `+`
/// continues the one before. Names are kept in lower case. `.SUBCKT` begins a subcircuit and `.ENDS` ends it; a line in
/// it whose first word begins with x is an instance, and other lines are kept as they stand. A word that holds `=` is
/// dropped with all after it. Outside subcircuits `.END` ends the text, and other commands are ignored.
///
/// A text that is no deck is refused by its first byte that isn't ASCII text, and else by the first line that breaks
/// these rules. `Memory` says that memory ran out, whatever the text is.
pub fn read_spice(alloc: Global, bytes: &[u8]) -> Result<Deck, SpiceFault>
    ensures read { IfOk result (λ read. deck bytes.now ≡ Ok read) }
    ensures refused { IfErr result (λ fault. IsSpiceFault fault (deck bytes.now)) }
{
    if let Some(index) = first_foreign(bytes) {
        return Err(SpiceFault::NotAscii { at: index as u64 });
    }
    read_deck(alloc, bytes)
}
