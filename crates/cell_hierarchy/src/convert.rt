use crate::fault::FlattenFault;
use cell_chains::ChainFault;

/// Why there is no list of cells is why there is no flat layout.
impl From<ChainFault> for FlattenFault {
    ghost use Rattle.std.specs.Prelude.{◌≡◌};
    ghost use Rattle.cell_hierarchy.specs.Settled.{fault_of};

    ghost from_gives = { λ fault flat. flat ≡ fault_of fault };

    fn from(fault: ChainFault) -> Self {
        match fault {
            ChainFault::UnknownStruct { name } => FlattenFault::UnknownStruct { name },
            ChainFault::Cycle { name } => FlattenFault::Cycle { name },
            ChainFault::TooDeep { depth } => FlattenFault::TooDeep { depth },
            ChainFault::Memory => FlattenFault::Memory,
        }
    }
}
