use or_geom::Memory;
use thiserror::Error;

/// Why bytes aren't the words of a read-only macro.
#[derive(Clone, Copy, Debug, PartialEq, Eq, Error)]
pub enum RomFault {
    /// There are more or fewer bytes than those of all words. `length` is how many there are.
    #[error("{length} bytes aren't those of all words")]
    DataLength { length: u64 },
    /// The word at this address is the first that has a bit at or above the word's size.
    #[error("the word at address {word} has too many bits")]
    DataBits { word: u64 },
    /// No memory was left, whatever the bytes are.
    #[error("out of memory")]
    Memory,
}

impl From<Memory> for RomFault {
    ghost use Rattle.std.specs.Prelude.{◌≡◌};
    ghost use Rattle.rom_data.specs.declared.fault.RomFault.TheVariants as fault;

    ghost from_gives = { λ _ e. e ≡ fault.Memory };

    fn from(_: Memory) -> Self {
        RomFault::Memory
    }
}
