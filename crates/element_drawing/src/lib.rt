//! What the elements of one cell draw: the shapes of its polygons and paths, and its labels, on a technology's layers.
#![tactic(auto)]

mod boxes;
mod drawing;
mod extent;
mod label;
mod labels;
mod laws;
mod layer;
mod shapes;
mod stretch;

pub use label::ElementLabel;
pub use labels::own_labels;
pub use laws::eq_is_same;
pub use shapes::own_shapes;
