//! What the program answers: an exit status and lines, for refusals, reports and nets.
#![tactic(auto)]

mod build_refusal;
mod device_refusal;
mod difference;
mod finding;
mod heading;
mod line;
mod lines;
mod net_lines;
mod refusal;
mod reply;
mod rom_refusal;
mod text_lines;

pub use difference::comparison_reply;
pub use finding::{report_of, violation_line};
pub use heading::unwritten_line;
pub use line::ReplyLine;
pub use lines::{LineSource, ReplyLines};
pub use net_lines::nets_reply;
pub use refusal::Refusal;
pub use reply::Reply;
pub use text_lines::TextLines;
