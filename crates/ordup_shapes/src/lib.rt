//! The structs that cross to C, and what they stand for.
//!
//! What the layers above rely on: changes are the message set that they stand for, or refused for the first reason; so are scopes.
#![tactic(auto)]

mod change;
mod condition;
mod scope;
mod told;

pub use change::{RawChange, read_set};
pub use condition::{RawCondition, read_conditions};
pub use scope::{id_of, kind_of, read_scope};
pub use told::{Charged, Ended, Lag, Progress, Seen, Told};
