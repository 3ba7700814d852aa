use cell_hierarchy::FlattenFault;
use or_geom::{Memory, Name};

/// Why leaf cells aren't compared. A `role` is named as in the technology.
#[derive(Debug, Drop)]
pub enum DeviceFault {
    /// The technology has no device.
    NoDevices,
    /// A role's cell has no flat layout.
    Flatten(FlattenFault),
    /// No subcircuit is named as the cell is, in lower case.
    UnknownSubckt { name: Name },
    /// The subcircuit has an instance.
    Nested { role: Name },
    /// The M line with this number, from 0 among the subcircuit's lines that are no instances, has fewer than six
    /// words.
    BadDevice { role: Name, line: u64 },
    /// Memory ran out.
    Memory,
}

impl From<Memory> for DeviceFault {
    ghost use Rattle.std.specs.Prelude.{◌≡◌};
    ghost use Rattle.device_lvs.specs.declared.fault.DeviceFault.TheVariants as device_fault;

    ghost from_gives = { λ _ fault. fault ≡ device_fault.Memory };

    fn from(_: Memory) -> Self {
        DeviceFault::Memory
    }
}

impl From<FlattenFault> for DeviceFault {
    ghost use Rattle.std.specs.Prelude.{◌≡◌};
    ghost use Rattle.device_lvs.specs.RoleSteps.{of_flatten};

    ghost from_gives = { λ flatten fault. fault ≡ of_flatten flatten };

    fn from(fault: FlattenFault) -> Self {
        match fault {
            FlattenFault::Memory => DeviceFault::Memory,
            other => DeviceFault::Flatten(other),
        }
    }
}
