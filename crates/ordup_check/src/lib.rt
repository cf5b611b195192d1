//! The auditor's library: all that an auditor calls. An auditor trusts nothing else. The reader of records is made here; the check and the
//! writer stand in the crates below. `record_of` is passed on for those who make records: the check does not use it.
//!
//! The one contract above this layer: a text is read as the record that it tells, or up to the first row that breaks a rule.
//!
//! `row_columns.rt` reads what a column spells, `partial_record.rt` adds a row by its kind, and `stage.rt` goes from one row to the
//! next. `partial_updates.rt` forms the log while the rows are read: it has the objects, the log, the updates from the first that
//! is not legal on, and the last update, which may get more changes. `limited.rt` stops where there are more bytes than the limit,
//! and `short_rows.rt` where a row is too long for one of a record. That passes on rows without quotes together, and goes over all
//! other bytes one by one.
#![tactic(auto)]

mod laws;
mod limited;
mod partial_record;
mod partial_updates;
mod reading;
mod row_columns;
mod series;
mod series_reader;
mod short_rows;
mod sites;
pub mod sizes;
mod stage;

pub use laws::{
    texts_of_a_series_are_not_malformed, texts_tell_one_series, written_series_are_told,
};
pub use ordup_audit::{Reason, Record, Verdict, check};
pub use ordup_record::record_of;
pub use ordup_rows::{RecordWriteFault, write_record};
pub use ordup_series::{SeriesAudit, SeriesReason, SeriesVerdict};
pub use reading::{RecordReadFault, read_record, read_record_within};
pub use series::{SeriesReadFault, audit_series};
pub use series_reader::SeriesReader;
pub use sites::audit_sites;
