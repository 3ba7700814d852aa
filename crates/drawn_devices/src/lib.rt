//! The transistors that a cell draws: its channels, the nets of their terminals, and the names of these nets.
#![tactic(auto)]

mod boxes;
mod channels;
mod connections;
mod cut_cell;
mod cut_shapes;
mod devices;
mod diffusion;
mod drawn;
mod gates;
mod groups;
mod laws;
mod names;
mod same_layers;
mod sides;
mod terminals;

pub use devices::drawn_devices;
pub use drawn::{DeviceChannel, DrawnDevices, Flow, NetName, Side, Terminals};
pub use laws::{channels_are_these, these_are_channels};
