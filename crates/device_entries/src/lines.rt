ghost use Rattle.std.specs.Prelude.{◌≡◌, IfOk, IfErr};
ghost use Rattle.device_entries.specs.Lines.{begins_with_m, entry_in_words, AreLineEntries, IsLineFault};
ghost use Rattle.device_entries.specs.LineSteps.{ReadsAs};

use crate::entry::{DeviceEntry, entry_of};
use crate::words::{lower_words, plain_count};
use or_geom::{Items, Memory, Name};
use std::alloc::Global;
use thiserror::Error;

/// Why a subcircuit's M lines aren't transistors.
#[derive(Debug, Drop, Error)]
pub enum LineFault {
    /// The M line with this number, from 0 among the lines that are no instances, has fewer than six words.
    #[error("line {line} has fewer than six words")]
    BadDevice { line: u64 },
    /// Memory ran out.
    #[error("out of memory")]
    Memory,
}

impl From<Memory> for LineFault {
    ghost use Rattle.std.specs.Prelude.{◌≡◌};
    ghost use Rattle.device_entries.specs.declared.lines.LineFault.TheVariants as line_fault;

    ghost from_gives = { λ _ e. e ≡ line_fault.Memory };

    fn from(_: Memory) -> Self {
        LineFault::Memory
    }
}

/// What a line is.
#[derive(Drop)]
enum DeviceLine {
    /// No M line.
    Other,
    /// An M line with fewer than six words.
    Short,
    Whole(DeviceEntry),
}

fn begins_with_m(words: &[Name]) -> bool
    ensures { result ≡ begins_with_m words.now }
{
    let Some(first) = words.first() else {
        return false;
    };
    match first.as_bytes() {
        [b'm', ..] => true,
        _ => false,
    }
}

/// The transistor of a name, drain, gate, source, bulk and model, and of what stands behind them.
fn entry_in_words(alloc: Global, words: &[Name]) -> Result<Option<DeviceEntry>, Memory>
    ensures { IfOk result (λ e. e ≡ entry_in_words words.now) }
{
    match words {
        [_, drain, gate, source, _, model, ..] => Ok(Some(entry_of(
            alloc,
            model.as_bytes(),
            gate.as_bytes(),
            drain.as_bytes(),
            source.as_bytes(),
        )?)),
        _ => Ok(None),
    }
}

/// What a line is, read without regard to case.
fn read_line(alloc: Global, line: &[u8]) -> Result<DeviceLine, Memory>
    ensures { IfOk result (ReadsAs line.now) }
{
    let words = lower_words(alloc, line)?;
    if !begins_with_m(&words) {
        return Ok(DeviceLine::Other);
    }
    match entry_in_words(alloc, &words[..plain_count(&words)])? {
        Some(entry) => Ok(DeviceLine::Whole(entry)),
        None => Ok(DeviceLine::Short),
    }
}

/// The transistors of the M lines among the lines of a subcircuit that are no instances, or the first M line that has
/// fewer than six words.
pub fn line_entries(alloc: Global, lines: &[Name]) -> Result<Vec<DeviceEntry>, LineFault>
    ensures entries { IfOk result (λ e. AreLineEntries lines.now e.items) }
    ensures fault { IfErr result (IsLineFault lines.now) }
{
    let mut entries = Items::new(alloc);
    for place in 0..lines.len() {
        match read_line(alloc, lines[place].as_bytes())? {
            DeviceLine::Other => {}
            DeviceLine::Short => return Err(LineFault::BadDevice { line: place as u64 }),
            DeviceLine::Whole(entry) => entries.push(entry)?,
        }
    }
    Ok(entries.into_vec())
}
