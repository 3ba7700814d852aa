use or_geom::{Memory, Name};
use thiserror::Error;

/// Why a deck has no flat rows of a top. Names are in lower case.
#[derive(Debug, Drop, Error)]
pub enum FlatFault {
    /// The least name, in byte order, that is the top or is referred to from what the top reaches, and isn't there.
    #[error("there is no subcircuit {name}")]
    UnknownSubckt { name: Name },
    /// The least name of a subcircuit that the top reaches and that reaches itself.
    #[error("the subcircuit {name} is inside itself")]
    Cycle { name: Name },
    /// The path of the first instance of the walk that has not as many nodes as its subcircuit has ports.
    #[error("the instance {path} has not as many nodes as its subcircuit has ports")]
    PortCount { path: Name },
    /// 2^20 + 1 where there are more than 2^20 leaf instances, or else 2^24 + 1 where there are more than 2^24 pins.
    #[error("there are {count} leaf instances or pins or more")]
    TooMany { count: u64 },
    /// No memory was left, whatever the deck is.
    #[error("out of memory")]
    Memory,
}

impl From<Memory> for FlatFault {
    ghost use Rattle.std.specs.Prelude.{◌≡◌};
    ghost use Rattle.spice_netlist.specs.declared.fault.FlatFault.TheVariants as flat_fault;

    ghost from_gives = { λ _ e. e ≡ flat_fault.Memory };

    fn from(_: Memory) -> Self {
        FlatFault::Memory
    }
}
