ghost use Rattle.std.specs.Prelude.{◌≡◌};
ghost use Rattle.device_command.specs.DeviceLines.{device_refusal};

use device_lvs::DeviceFault;
use leaf_tables::KitFault;
use reply_lines::Refusal;

/// The refusal that a fault is. A missing subcircuit is refused as one of a kit's.
pub fn device_refusal(fault: DeviceFault) -> Refusal
    ensures { result ≡ device_refusal fault }
{
    match fault {
        DeviceFault::NoDevices => Refusal::NoDevices,
        DeviceFault::Flatten(fault) => Refusal::Flatten(fault),
        DeviceFault::UnknownSubckt { name } => Refusal::Kit(KitFault::UnknownSubckt { name }),
        DeviceFault::Nested { role } => Refusal::Nested { role },
        DeviceFault::BadDevice { role, line } => Refusal::BadDevice { role, line },
        DeviceFault::Memory => Refusal::Memory,
    }
}
