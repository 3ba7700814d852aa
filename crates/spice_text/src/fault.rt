use or_geom::Memory;
use thiserror::Error;

/// Why a text is no deck. `line` is the number, from 1, of the first line that breaks the format; a continued line has
/// the number of its first line.
#[derive(Clone, Copy, Debug, PartialEq, Eq, Error)]
pub enum SpiceFault {
    /// The first byte above 7E, or below 20 that isn't tab, CR or LF. No line is looked at before it is known that
    /// there is none.
    #[error("byte {at} isn't ASCII text")]
    NotAscii { at: u64 },
    /// A line outside every subcircuit that is no command.
    #[error("line {line} stands outside every subcircuit")]
    OutsideSubckt { line: u64 },
    /// A `.SUBCKT` inside a subcircuit, an `.ENDS` outside, or one with another name; or the `.SUBCKT` that no `.ENDS`
    /// ends.
    #[error("the subcircuit at line {line} isn't closed")]
    Unclosed { line: u64 },
    /// The name of a subcircuit, of a port or of an instance that stands there twice.
    #[error("line {line} gives a name that is taken")]
    Duplicate { line: u64 },
    /// `.GLOBAL` or `.INCLUDE`.
    #[error("line {line} is a command that isn't read")]
    Refused { line: u64 },
    /// A `.SUBCKT` without a name, an instance of fewer than two words, or a `+` with nothing to continue.
    #[error("line {line} lacks a part")]
    BadLine { line: u64 },
    /// No memory was left, whatever the text is.
    #[error("out of memory")]
    Memory,
}

impl From<Memory> for SpiceFault {
    ghost use Rattle.std.specs.Prelude.{◌≡◌};
    ghost use Rattle.spice_text.specs.declared.fault.SpiceFault.TheVariants as fault;

    ghost from_gives = { λ _ e. e ≡ fault.Memory };

    fn from(_: Memory) -> Self {
        SpiceFault::Memory
    }
}
