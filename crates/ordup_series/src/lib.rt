//! Records of one site, one after another, and their audit. It says what the whole is that they are of, and that their rounds are the
//! fewest of it. The audit holds one record at a time.
//!
//! The one contract above this layer: a series is answered the number of its rounds exactly where each record is valid and begins with
//! what the one before ended with, and then no schedule of the whole that keeps the limits has fewer; else the first reason against it.
//!
//! Limits may differ from record to record. So a whole has them by place, and not as a table.
#![tactic(auto)]

mod audit;
mod laws;
mod record_end;
pub mod sizes;
mod verdict;

pub use audit::SeriesAudit;
pub use laws::{
    certified_series_are_valid, certified_series_have_the_fewest_rounds,
    series_have_the_rounds_of_their_records, valid_series_are_certified,
};
pub use record_end::{first_other_row, objects_at_end};
pub use verdict::{SeriesReason, SeriesVerdict};
