use crate::fault::KitFault;
use cell_hierarchy::FlattenFault;
use or_geom::Memory;
use role_tables::TableFault;
use spice_text::SpiceFault;

impl From<Memory> for KitFault {
    ghost use Rattle.std.specs.Prelude.{◌≡◌};
    ghost use Rattle.leaf_tables.specs.declared.fault.KitFault.TheVariants as kit_fault;

    ghost from_gives = { λ _ fault. fault ≡ kit_fault.Memory };

    fn from(_: Memory) -> Self {
        KitFault::Memory
    }
}

impl From<SpiceFault> for KitFault {
    ghost use Rattle.std.specs.Prelude.{◌≡◌};
    ghost use Rattle.leaf_tables.specs.Faults.{of_spice};

    ghost from_gives = { λ spice fault. fault ≡ of_spice spice };

    fn from(fault: SpiceFault) -> Self {
        match fault {
            SpiceFault::Memory => KitFault::Memory,
            other => KitFault::Spice(other),
        }
    }
}

impl From<TableFault> for KitFault {
    ghost use Rattle.std.specs.Prelude.{◌≡◌};
    ghost use Rattle.leaf_tables.specs.Faults.{of_table};

    ghost from_gives = { λ table fault. fault ≡ of_table table };

    fn from(fault: TableFault) -> Self {
        match fault {
            TableFault::Memory => KitFault::Memory,
            other => KitFault::Table(other),
        }
    }
}

impl From<FlattenFault> for KitFault {
    ghost use Rattle.std.specs.Prelude.{◌≡◌};
    ghost use Rattle.leaf_tables.specs.Faults.{of_flatten};

    ghost from_gives = { λ flatten fault. fault ≡ of_flatten flatten };

    fn from(fault: FlattenFault) -> Self {
        match fault {
            FlattenFault::Memory => KitFault::Memory,
            other => KitFault::Flatten(other),
        }
    }
}
