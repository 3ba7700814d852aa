use or_geom::{Memory, Name};

/// Why a library has no flat form below a structure.
#[derive(Debug, Drop)]
pub enum ChainFault {
    /// The least name, by its bytes, that is the top or is reached from it and that no structure has.
    UnknownStruct { name: Name },
    /// The least name reached that reaches itself.
    Cycle { name: Name },
    /// The longest chain has this many references, which are more than 32. The number is saturated at 2^32 - 1.
    TooDeep { depth: u32 },
    /// Memory ran out.
    Memory,
}

impl From<Memory> for ChainFault {
    ghost use Rattle.std.specs.Prelude.{◌≡◌};
    ghost use Rattle.cell_chains.specs.declared.fault.ChainFault.TheVariants as chain_fault;

    ghost from_gives = { λ _ fault. fault ≡ chain_fault.Memory };

    fn from(_: Memory) -> Self {
        ChainFault::Memory
    }
}
