ghost use Rattle.std.specs.Prelude.{◌≡◌};
ghost use Rattle.macro_build.specs.Causes.{of_part, of_flatten};

use cell_hierarchy::FlattenFault;
use leaf_tables::PartFault;
use net_extractor::NetDiff;
use or_geom::Memory;
use tile_checker::Violation;

/// The four views of a macro, and what is told of it: the tracks of its main channel, its leaf instances, and its sides
/// in nanometres.
#[derive(Drop)]
pub struct Built {
    pub spice: Vec<u8>,
    pub gds: Vec<u8>,
    pub lef: Vec<u8>,
    pub verilog: Vec<u8>,
    pub tracks: u32,
    pub leaves: u64,
    pub width: i64,
    pub height: i64,
}

/// Why nothing is built.
#[derive(Debug, Drop)]
pub enum BuildFault {
    /// A part can't be built from the leaf cells.
    Part(PartFault),
    /// The macro has no flat layout.
    Flatten(FlattenFault),
    /// The layout breaks a rule: the first entry of its report.
    RuleBroken(Violation),
    /// The layout's labels are not joined as the netlist says: the first difference.
    NetsDiffer(NetDiff),
    /// Memory ran out.
    Memory,
}

impl From<Memory> for BuildFault {
    ghost use Rattle.std.specs.Prelude.{◌≡◌};
    ghost use Rattle.macro_build.specs.declared.built.BuildFault.TheVariants as build_fault;

    ghost from_gives = { λ _ fault. fault ≡ build_fault.Memory };

    fn from(_: Memory) -> Self {
        BuildFault::Memory
    }
}

impl BuildFault {
    /// The fault of a build whose part can't be built. Want of memory stays what it is.
    pub(crate) fn of_part(fault: PartFault) -> BuildFault
        ensures { result ≡ of_part fault }
    {
        match fault {
            PartFault::Memory => BuildFault::Memory,
            other => BuildFault::Part(other),
        }
    }

    /// The fault of a build whose macro has no flat layout. Want of memory stays what it is.
    pub(crate) fn of_flatten(fault: FlattenFault) -> BuildFault
        ensures { result ≡ of_flatten fault }
    {
        match fault {
            FlattenFault::Memory => BuildFault::Memory,
            other => BuildFault::Flatten(other),
        }
    }
}
