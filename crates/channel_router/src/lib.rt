//! Routes a channel: each net's trunk on its track, its branches to the pins, and the cuts between them.
#![tactic(auto)]

mod assign;
mod channel;
mod close;
mod intervals;
mod laws;
mod occupied;
mod order;
mod router;
mod wires;

pub use channel::{Channel, ChannelPin, Routed};
pub use laws::{density_tracks_suffice, stated_is_an_assignment};
pub use router::route;
