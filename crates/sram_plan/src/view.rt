use or_geom::{Items, Name};

/// A macro seen from outside, as an abstract view (LEF) shows it. Lengths are nanometres.
#[derive(Debug, Drop)]
pub struct Abstract {
    pub name: Name,
    pub width: i64,
    pub height: i64,
    /// The pitch of wires: width and space.
    pub pitch: i64,
    /// The left side of the first supply trunk.
    pub supply_x: i64,
    pub space: i64,
    pub wire: i64,
    /// The metal layers' names, lowest first.
    pub metals: Items<Name>,
    /// The signal ports in order.
    pub signals: Items<SignalPin>,
}

/// A signal port on the macro's left side.
#[derive(Debug, Drop)]
pub struct SignalPin {
    pub name: Name,
    /// The lower side of its wire.
    pub y: i64,
    pub output: bool,
    pub clock: bool,
}
