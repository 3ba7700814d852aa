use or_geom::{Memory, Name};

/// Why a structure has no flat layout.
#[derive(Debug, Drop)]
pub enum FlattenFault {
    /// The least name, by its bytes, that is the top or is reached from it and that no structure has.
    UnknownStruct { name: Name },
    /// The least name reached that reaches itself.
    Cycle { name: Name },
    /// The longest chain has this many references, which are more than 32. The number is saturated at 2^32 - 1.
    TooDeep { depth: u32 },
    /// More than 2^24 shapes or 2^22 labels, before equal ones are merged. Each number is saturated at 2^32.
    TooMany { shapes: u64, labels: u64 },
    /// The first corner of a shape or point of a label, by x and then y, that lies outside 32 bits.
    Far { x: i64, y: i64 },
    /// Memory ran out.
    Memory,
}

impl From<Memory> for FlattenFault {
    ghost use Rattle.std.specs.Prelude.{◌≡◌};
    ghost use Rattle.cell_hierarchy.specs.declared.fault.FlattenFault.TheVariants as flatten_fault;

    ghost from_gives = { λ _ fault. fault ≡ flatten_fault.Memory };

    fn from(_: Memory) -> Self {
        FlattenFault::Memory
    }
}
