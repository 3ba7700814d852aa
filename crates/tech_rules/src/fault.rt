use or_geom::{Memory, Name};
use thiserror::Error;
use toml_keys::{KeyFault, KeyProblem};

/// Why a file is no technology. A `key` is written with dots, and with the indices, from 0, of the tables of an array:
/// `layer.2.gds`.
#[derive(Debug, Drop, Error)]
pub enum TechFault {
    /// The bytes are no TOML document.
    #[error("the technology is no TOML document")]
    NotToml,
    /// Nothing stands under a key that is needed.
    #[error("{key} is missing")]
    Missing { key: Name },
    /// What stands under the key is of another kind.
    #[error("{key} is of another kind")]
    WrongKind { key: Name },
    /// What stands under the key is of the right kind and isn't allowed.
    #[error("{key} is out of range")]
    OutOfRange { key: Name },
    /// What stands under the key names a layer that isn't there.
    #[error("{key} names an unknown layer")]
    UnknownLayer { key: Name },
    /// The rules or connections don't allow the wires that the technology describes on this layer.
    #[error("wires on layer {layer} break the rules")]
    BadWire { layer: Name },
    /// Memory ran out.
    #[error("out of memory")]
    Memory,
}

impl KeyFault for TechFault {
    ghost use Rattle.tech_rules.specs.Fault.{tech_faults};

    ghost faults = { tech_faults };

    fn of_key(problem: KeyProblem, key: Name) -> Self {
        match problem {
            KeyProblem::Missing => TechFault::Missing { key },
            KeyProblem::WrongKind => TechFault::WrongKind { key },
            KeyProblem::OutOfRange => TechFault::OutOfRange { key },
        }
    }

    fn out_of_memory() -> Self {
        TechFault::Memory
    }
}

impl From<Memory> for TechFault {
    ghost use Rattle.std.specs.Prelude.{◌≡◌};
    ghost use Rattle.tech_rules.specs.declared.fault.TechFault.TheVariants as tech_fault;

    ghost from_gives = { λ _ e. e ≡ tech_fault.Memory };

    fn from(_: Memory) -> Self {
        TechFault::Memory
    }
}
