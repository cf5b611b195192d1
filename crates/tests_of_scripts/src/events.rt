//! Names, the names of refusals, whole lists of events, and worked rows of logs, ledgers and limits.
mod answers;
mod fixtures;
mod names;
mod worked_rows;
