use or_geom::{Items, Name, Point};

/// A side of a box.
#[derive(Clone, Copy, Debug)]
pub enum Side {
    Left,
    Right,
    Below,
    Above,
}

/// Between which two sides of a channel current flows.
#[derive(Clone, Copy, Debug)]
pub enum Flow {
    /// From the left side to the right one, or back.
    Across,
    /// From the lower side to the upper one, or back.
    Upward,
}

/// A name that a label gives to a net: in lower case, and the number of the net.
#[derive(Debug, Drop)]
pub struct NetName {
    pub name: Name,
    pub net: u32,
}

/// The numbers of the nets that a channel's gate and its two open sides are on. The first open side is the left or the
/// lower one.
#[derive(Clone, Copy, Debug)]
pub struct Terminals {
    pub gate: u32,
    pub first: u32,
    pub second: u32,
}

/// A channel: the index of its device in the technology's list, the lower left corner of its least unit cell in
/// nanometres, and its terminals if it is sound.
#[derive(Clone, Copy, Debug)]
pub struct DeviceChannel {
    pub device: u16,
    pub least: Point,
    pub terminals: Option<Terminals>,
}

/// The channels of a cell, in order, and the names of its nets.
#[derive(Debug, Drop)]
pub struct DrawnDevices {
    pub names: Items<NetName>,
    pub channels: Items<DeviceChannel>,
}
