//! Records of the GDSII stream format, and the parts that a file is made of.
#![tactic(auto)]

pub mod code;
mod error;
mod form;
pub mod limits;
mod points;
mod reading;
mod record;
mod writing;

pub use error::{Demand, Fault, RecordError};
pub use form::text_in;
pub use points::{first_point, point_in, points_in};
pub use reading::{Taken, barred, begun, has_code, int16_from, next, skipped, text_from, unmet};
pub use record::{Record, cut_record};
pub use writing::{
    append_head, append_int16, append_int32, append_name, append_point, append_points,
    append_points_back, append_record, append_text,
};
