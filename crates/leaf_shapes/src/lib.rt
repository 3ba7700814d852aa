//! What a leaf cell has to draw: its outline, and the shapes of its pins.
#![tactic(auto)]

mod candidate;
mod demand;
mod fault;
mod fit;
mod outline;
mod pins;

pub use demand::{Metal, PinRequirement, demands};
pub use fault::PinFault;
pub use fit::{CellSize, Fit};
pub use outline::outline_size;
pub use pins::{LeafPin, pin_shapes};
