//! The lag of a site at each decision. Its record tells it: there is a row for each decided place.
//!
//! The one contract above this layer: the lag of a valid record is written whole, or a prefix of it and then the writer failed. Of
//! a record that comes after others the places, the reports and the windows are counted on.
//!
//! `writing.rt` goes through the places in order, and moves a ledger from place to place: by the update, by the limits that begin
//! to hold, and by what the site has reported since. So a place costs by its changes and its limits, however long the span is. It
//! takes all memory before the first line, and hands the lines out a piece at a time. `amount_cell.rt` keeps the digits of an amount
//! from row to row.
#![tactic(auto)]

mod amount_cell;
mod offsets;
mod places;
mod row_text;
mod writing;

pub use offsets::Offsets;
pub use writing::{LagFault, write_lag};
