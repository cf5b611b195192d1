//! The jobs `check` and `lag`, of a record, a series or, to check, several sites. `check` prints the verdict, and `lag` the lag where it is valid.
//!
//! The one contract above this layer: a record was read and judged, and what was printed follows from both; else nothing was written,
//! or of a series the lag of the records before.
#![tactic(auto)]

mod check;
mod faults;
mod lag;
mod series;
mod series_lag;
mod verdict;

pub use check::check_record;
pub use faults::fault_of_reading;
pub use lag::print_lag;
pub use series::{check_series, check_sites};
pub use series_lag::print_lag_of_series;
pub use verdict::print_verdict;
