//! The record of a site, made of a primary for an auditor. The record itself is of the audit, which knows no primary.
//!
//! The one contract above this layer: the record of a site holds what the primary has of it, and is valid. `view_of` lends it and
//! `record_of` copies it. The records of a site of successive stores are a valid series.
//!
//! A primary keeps the changes of a report as steps of a number, and an auditor as `ReportChange`s. `ReportChanges` of
//! `ordup_audit` is one or the other.
#![tactic(auto)]

mod laws;
mod recording;
mod viewing;

pub use laws::{successive_records_are_a_valid_series, successive_records_are_next};
pub use recording::record_of;
pub use viewing::view_of;
