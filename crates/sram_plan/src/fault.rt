use or_geom::{Memory, Name};
use thiserror::Error;
use toml_keys::{KeyFault, KeyProblem};

/// Why a file is no configuration.
#[derive(Debug, Drop, Error)]
pub enum ConfigFault {
    /// The bytes are no TOML document.
    #[error("the configuration is no TOML document")]
    NotToml,
    /// A key that no configuration has. It is the least such key in byte order.
    #[error("{key} is no key of a configuration")]
    UnknownKey { key: Name },
    /// Nothing stands under a key that is needed.
    #[error("{key} is missing")]
    Missing { key: Name },
    /// What stands under the key is of another kind.
    #[error("{key} is of another kind")]
    WrongKind { key: Name },
    /// What stands under the key is of the right kind and isn't allowed.
    #[error("{key} is out of range")]
    OutOfRange { key: Name },
    /// Want of memory.
    #[error("out of memory")]
    Memory,
}

impl From<Memory> for ConfigFault {
    ghost use Rattle.std.specs.Prelude.{◌≡◌};
    ghost use Rattle.sram_plan.specs.declared.fault.ConfigFault.TheVariants as config_fault;

    ghost from_gives = { λ _ e. e ≡ config_fault.Memory };

    fn from(_: Memory) -> Self {
        ConfigFault::Memory
    }
}

impl KeyFault for ConfigFault {
    ghost use Rattle.sram_plan.specs.Fault.{config_faults};

    ghost faults = { config_faults };

    fn of_key(problem: KeyProblem, key: Name) -> Self {
        match problem {
            KeyProblem::Missing => ConfigFault::Missing { key },
            KeyProblem::WrongKind => ConfigFault::WrongKind { key },
            KeyProblem::OutOfRange => ConfigFault::OutOfRange { key },
        }
    }

    fn out_of_memory() -> Self {
        ConfigFault::Memory
    }
}
