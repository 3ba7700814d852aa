use or_geom::Name;

/// What a kit lacks: the first of these, in this order.
#[derive(Debug, Drop)]
pub enum Weak {
    /// The rule of this number, from 0, isn't one that the layers of wires allow.
    Layer {
        rule: u32,
    },
    /// The connection of this number, from 0, isn't one that they allow.
    Joint {
        connect: u32,
    },
    /// A shape of a leaf cell passes its outline too far, or the reach, in nanometres, is more than the widths of cells
    /// and the pitch of wires allow.
    Reach {
        reach: i64,
    },
    /// Labels of the role's pin bind no shape, or shapes on two nets, or one on the net of an earlier pin.
    Pin {
        role: Name,
        pin: Name,
    },
    /// The macro of these numbers has a fault, of the number that the refusal of a build has for it, or of 83 where a
    /// shape of a leaf cell that is on no pin's net touches a shape outside of its instance.
    Window {
        word_size: u32,
        write_size: u32,
        wpr: u32,
        rows: u32,
        banks: u32,
        fault: u32,
    },
}
