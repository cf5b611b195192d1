//! What tests by calls share: the objects, sets, declarations and primaries that they begin with, transcripts, readers that give a
//! little at a time, and the macros of what they expect.
//!
//! No function here ends a test. Each answers a `Result`, and `made`, in `expect.rt` of the tests, takes what is in it.
#![tactic(auto)]

/// Expects a condition, in a case where one is given. The proof of the test knows the condition from then on.
#[macro_export]
macro_rules! expect {
    ($rt:expr; $condition:expr) => {
        crate::expect::holds($rt, stringify!($condition), $condition)
    };
    ($rt:expr; $condition:expr, $case:expr) => {
        crate::expect::holds_in($rt, stringify!($condition), &$case, $condition)
    };
}

/// Expects that a value is another, in a case where one is given.
#[macro_export]
macro_rules! expect_eq {
    ($rt:expr; $found:expr, $wanted:expr) => {
        crate::expect::equal($rt, stringify!($found), &$found, &$wanted)
    };
    ($rt:expr; $found:expr, $wanted:expr, $case:expr) => {
        crate::expect::equal_in($rt, stringify!($found), &$case, &$found, &$wanted)
    };
}

mod objects;
pub mod readers;
mod stores;
pub mod transcripts;

pub use objects::{a, add, adding, b, set_of, set_of_one, x, x_y_and_z, y, z};
pub use stores::{Site, declared, mark_sent, propose_add, report_all, started};
