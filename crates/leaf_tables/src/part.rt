use or_geom::{Items, Memory, Name};
use wire_drawing::RouteFault;

/// Where a net comes to an edge of a part: the left end of its shape there, in nanometres.
#[derive(Debug, Drop)]
pub struct Edge {
    pub net: Name,
    pub x: i64,
}

/// The nets at the upper and at the lower edge of a part, by x and then name, and the part's sides in nanometres.
#[derive(Debug, Drop)]
pub struct Edges {
    pub top: Items<Edge>,
    pub bottom: Items<Edge>,
    pub width: i64,
    pub height: i64,
}

/// Why a part can't be built.
#[derive(Debug, Drop)]
pub enum PartFault {
    /// Two pins of one side of a channel (0 is the top, 1 the bottom) are nearer to each other than the pitch: their x.
    Close { side: u8, first: i64, second: i64 },
    /// Two taps of rails are nearer to each other than the pitch: their y.
    TapsClose { first: i64, second: i64 },
    /// The cell of this role is wider than the columns of a bit.
    SliceTooNarrow { role: Name },
    /// A leaf cell has the name of a structure or subcircuit that is to be built.
    NameTaken { name: Name },
    /// Memory ran out.
    Memory,
}

impl From<Memory> for PartFault {
    ghost use Rattle.std.specs.Prelude.{◌≡◌};
    ghost use Rattle.leaf_tables.specs.declared.part.PartFault.TheVariants as part_fault;

    ghost from_gives = { λ _ fault. fault ≡ part_fault.Memory };

    fn from(_: Memory) -> Self {
        PartFault::Memory
    }
}

impl From<RouteFault> for PartFault {
    ghost use Rattle.std.specs.Prelude.{◌≡◌};
    ghost use Rattle.leaf_tables.specs.Parts.{of_route};

    ghost from_gives = { λ route fault. fault ≡ of_route route };

    fn from(fault: RouteFault) -> Self {
        match fault {
            RouteFault::Close {
                side,
                first,
                second,
            } => PartFault::Close {
                side,
                first,
                second,
            },
            RouteFault::TapsClose { first, second } => PartFault::TapsClose { first, second },
            RouteFault::Memory => PartFault::Memory,
        }
    }
}
