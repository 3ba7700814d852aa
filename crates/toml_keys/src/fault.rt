ghost use Rattle.std.specs.Prelude.{◌≡◌};
ghost use Rattle.toml_keys.specs.Fault.{KeyFaults, key_fault};

use or_geom::Name;

/// What may be wrong with a key of a file.
#[derive(Clone, Copy, Debug, Drop)]
pub enum KeyProblem {
    /// Nothing stands under a key that is needed.
    Missing,
    /// What stands under the key is of another kind.
    WrongKind,
    /// What stands under the key is of the right kind and isn't allowed.
    OutOfRange,
}

/// A fault of a file of keys. Its kinds are those that any such file has; a key is written with dots and, for the
/// tables of an array, with indices from 0: `layer.2.gds`.
pub trait KeyFault: Drop {
    /// The faults of these kinds.
    ghost faults: { KeyFaults Self };

    /// A key has this problem.
    fn of_key(problem: KeyProblem, key: Name) -> Self
        ensures { result ≡ key_fault faults problem key };

    /// Memory ran out.
    fn out_of_memory() -> Self
        ensures { result ≡ faults.memory };
}
