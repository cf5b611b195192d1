//! What tests of clusters and of services share, beside `test_fixtures`: what a site shows, parts for threads (`together.rt`), a gate
//! that holds a site up, how long threads wait, and calls that repeat clauses (`promises.rt`).
#![tactic(auto)]

mod holding_gate;
pub mod promises;
mod reads;
mod together;
mod waiting;

pub use holding_gate::{Held, HoldingGate};
pub use reads::seen;
pub use together::{Parts, do_eight, do_four, do_ten, do_two};
pub use waiting::{TRIES, TURNS, is_raised_within};
