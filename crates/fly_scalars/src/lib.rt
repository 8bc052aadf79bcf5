//! The scalar forms of documents as texts, read and written: whole numbers, date-times, durations and bytes.
#![tactic(auto)]

mod binary;
mod datetime;
mod digits;
mod duration;
mod whole;

pub use binary::{read_bytes, write_bytes};
pub use datetime::{Instant, read_datetime, write_datetime};
pub use duration::{Span, read_duration, write_duration, write_millis};
pub use whole::{read_i64, read_u32, write_i64};
