use or_geom::{Memory, Name};
use thiserror::Error;

/// Why the tables of a technology don't say what leaf cells have to do. A `role` is named as in the technology.
#[derive(Debug, Drop, Error)]
pub enum TableFault {
    /// The role has no cell, no table or a table without rows.
    #[error("{role} has no cell or no table")]
    MissingRole { role: Name },
    /// This row, from 0, is no row of the role, or it matches a point that an earlier row matches.
    #[error("row {row} of the table of {role} is no row or matches what an earlier one matches")]
    BadRow { role: Name, row: u32 },
    /// At this point, inputs `/` stored bits, no row matches, or the first that does says something else.
    #[error("the table of {role} differs at {point}")]
    Differs { role: Name, point: Name },
    /// Memory ran out.
    #[error("out of memory")]
    Memory,
}

impl From<Memory> for TableFault {
    ghost use Rattle.std.specs.Prelude.{◌≡◌};
    ghost use Rattle.role_tables.specs.declared.fault.TableFault.TheVariants as table_fault;

    ghost from_gives = { λ _ fault. fault ≡ table_fault.Memory };

    fn from(_: Memory) -> Self {
        TableFault::Memory
    }
}
