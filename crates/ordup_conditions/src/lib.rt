//! Conditions of an update: what values must be after it, so that a stock or a balance passes no bound.
//!
//! What the layers above rely on: the first condition that the state after a message set does not meet is told. The set need not be
//! legal there, and nothing changes.
#![tactic(auto)]

mod condition;
mod unmet;

pub use condition::{Bound, Condition};
pub use unmet::{check_conditions, first_unmet};
