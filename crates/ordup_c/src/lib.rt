//! The store as a static library, for C and other languages. `clients/c/ordup.h` declares its functions, and says what their callers owe.
//!
//! The one contract above this layer: what the calls of a store give, in order, are the answers to the lines that it took.
#![tactic(auto)]

mod checking;
mod exports;
mod held;
mod laws;
mod next;
mod parts;
mod record;
mod session;
mod status;
mod store;

pub use laws::{each_run_adds_lines_and_answers, opened_stores_have_run_nothing};
