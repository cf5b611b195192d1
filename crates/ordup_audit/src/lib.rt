//! The audit of a site: its record, and the check of that. The record is a value. The check says whether the record shows that the site's
//! rounds are the fewest.
//!
//! It stands on no store: an auditor has the record alone. A record holds what is declared, the decided updates, and the reports,
//! rounds and windows of one site. Nothing in it has to be true.
//!
//! The one contract above this layer: `check` answers the fewest rounds exactly for valid records, and for all others the first
//! reason against the record, with its row.
//!
//! A `Record` has the store's own types. The updates of a wrong record may not be legal one after the other, so it has a log of
//! those before the first that is not, and the others as sets. A `RecordView` lends all parts of a record by reference. The log
//! that it lends may be longer than what is decided, so it says how many updates are of the record.
//!
//! The check is never refused memory. It has one function for each reason (`legality.rt`, `limits.rt`, `windows.rt`), in their
//! order. Those that ask for spans look them up in one table (`least_starts.rt`): for each decided place the least place from which
//! the span up to it passes none of the limits in force there. A ledger makes this table in one pass over the log. Where the table
//! has no memory, each span is found in the log.
//!
//! `rows.rt` computes where a part of the record stands among its rows, and `cursors.rt` how many of the reports and rounds are up
//! to a place. `Common.antt` in the proofs declares nothing: it passes on the names that proofs about records cite most.
#![tactic(auto)]

mod beginning;
mod checking;
mod cursors;
mod least_starts;
mod legality;
mod limits;
mod record;
mod record_view;
mod report_change;
mod report_changes;
mod rows;
mod same;
pub mod sizes;
mod verdict;
mod windows;

pub use beginning::{begin_limits, first_ledger};
pub use checking::check;
pub use record::{Record, RecordParts};
pub use record_view::RecordView;
pub use report_change::ReportChange;
pub use report_changes::ReportChanges;
pub use rows::{change_row, member_count};
pub use verdict::{Reason, Verdict};
