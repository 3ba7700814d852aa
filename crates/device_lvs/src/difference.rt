use or_geom::Name;

/// What the cell of a role draws otherwise than its subcircuit says. A `role` is named as in the technology;
/// coordinates are nanometres in the cell; other names are in lower case, and of two nodes the lesser by its bytes
/// stands first.
#[derive(Debug, Drop)]
pub enum DeviceDiff {
    /// The channel whose least unit cell has this lower left corner isn't sound: it is no box between two sides of
    /// diffusion and two without, its gate layer is an active layer too, or its gates are on more than one net.
    NotBox {
        role: Name,
        x: i64,
        y: i64,
    },
    /// Labels of the name are on two nets.
    Open {
        role: Name,
        name: Name,
    },
    /// Two names are on one net.
    Short {
        role: Name,
        first: Name,
        second: Name,
    },
    /// The net of one of the channel's terminals has no name.
    Nameless {
        role: Name,
        x: i64,
        y: i64,
    },
    /// The subcircuit has the transistor more often than the layout.
    Absent {
        role: Name,
        model: Name,
        gate: Name,
        low: Name,
        high: Name,
    },
    /// The layout has it more often than the subcircuit.
    Extra {
        role: Name,
        model: Name,
        gate: Name,
        low: Name,
        high: Name,
    },
}
