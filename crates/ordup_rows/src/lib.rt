//! Records as text: rows of comma-separated values, for an auditor.
//!
//! It says which rows tell a record, and has the laws of that. It writes records; the reader stands above it.
//!
//! The one contract above this layer: rows tell one record, or have one first bad row; and a record is written as its rows, and its
//! text tells that record.
//!
//! What rows tell is said without a reader: they are the rows of a record, or they have a first row from which on they cannot
//! become those of one. `Stages.antt` and `Columns.antt` have a reader as a function, row by row, and the laws show that it is
//! exact.
#![tactic(auto)]

mod forming;
mod laws;
mod row_kind;
mod sending;
pub mod sizes;
mod spelling;
mod version;
mod writing;

pub use laws::{
    first_row_not_taken_is_bad, incomplete_records_miss_a_row, reading_is_complete,
    reading_is_sound, rows_have_one_first_bad_row, rows_of_a_record_have_no_bad_row,
    rows_of_each_version_are_read, rows_tell_a_record_or_have_a_bad_row, rows_tell_one_record,
    taken_rows_begin_a_record, texts_are_malformed_at_one_row, texts_have_one_list_of_rows,
    texts_of_a_record_are_not_malformed, texts_tell_one_record, written_texts_are_within_the_limit,
    written_texts_have_their_rows, written_texts_tell_their_record,
};
pub use row_kind::RowKind;
pub use version::Version;
pub use writing::{RecordWriteFault, write_record, write_view};
