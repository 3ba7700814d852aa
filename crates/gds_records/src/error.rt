ghost use Rattle.std.specs.Prelude.{◌≡◌};

use or_geom::Memory;

/// What the data of a record has to be, beyond having the form of its code.
#[derive(Clone, Copy, Debug, PartialEq, Eq)]
pub enum Demand {
    /// Any data of the form.
    Plain,
    /// The database unit: one nanometre.
    Units,
    /// The ring of a boundary.
    Outline,
    /// How a reference is placed.
    Transform,
    /// How a path is drawn.
    Track,
    /// A name that no structure before has.
    NewName,
}

/// What is wrong with a record.
#[derive(Clone, Copy, Debug, PartialEq, Eq)]
pub enum Fault {
    /// It can't be cut off, has no code of the table, or its data hasn't the form of its code.
    BadRecord,
    /// The order of records doesn't allow it.
    NotInPlace,
    /// It is in its place, and its data isn't what this demand asks.
    Unmet(Demand),
}

/// Where reading stops.
#[derive(Clone, Copy, Debug, PartialEq, Eq)]
pub enum RecordError {
    /// The bytes end where a record is wanted.
    Short,
    /// A record is wrong, which begins so many bytes before the end.
    At {
        left: usize,
        code: u16,
        fault: Fault,
    },
    Memory,
}

impl From<Memory> for RecordError {
    ghost use Rattle.gds_records.specs.declared.error.RecordError.TheVariants as error;

    ghost from_gives = { λ _ e. e ≡ error.Memory };

    fn from(_: Memory) -> Self {
        RecordError::Memory
    }
}
