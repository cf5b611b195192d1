//! How the jobs of the program end, and what they print. A fault is why one was not done, with the line and the exit status that tell it.
//!
//! The one contract above this layer: a fault is told in its line, or in a prefix of it, and a text is printed whole, or a prefix of
//! it and then the writer failed.
#![tactic(auto)]

mod fault;
mod printing;
mod status;

pub use fault::{Fault, Outcome, tell};
pub use printing::{flush, print};
pub use status::{DONE, NOT_DONE, WRONG_WORDS};
