//! A macro's abstract view as LEF, and its behaviour as Verilog.
#![tactic(auto)]

mod lef;
mod line;
mod verilog;

pub use lef::lef_text;
pub use verilog::verilog_text;
