use or_geom::{Memory, Name};

/// Why a leaf cell lacks the shape of a pin, which is the first for which it does.
#[derive(Debug, Drop)]
pub enum PinFault {
    /// No label of the pin binds a shape.
    PinMissing { pin: Name },
    /// For some demand none of the shapes that the pin's labels bind is on the layer.
    PinLayer { pin: Name },
    /// The pin's labels bind a shape on the layer of each demand, but for some demand none that lies as the demand
    /// asks.
    EdgePin { pin: Name },
    /// Memory ran out.
    Memory,
}

impl From<Memory> for PinFault {
    ghost use Rattle.std.specs.Prelude.{◌≡◌};
    ghost use Rattle.leaf_shapes.specs.declared.fault.PinFault.TheVariants as pin_fault;

    ghost from_gives = { λ _ fault. fault ≡ pin_fault.Memory };

    fn from(_: Memory) -> Self {
        PinFault::Memory
    }
}
