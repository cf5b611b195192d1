//! Declarations of a store as lines of a script, for its successor.
//!
//! The one contract above this layer: the lines of a setup, run as a script, declare just that setup and start its store.
#![tactic(auto)]

mod forming;
mod laws;
mod successor;

pub use forming::{push_declarations, push_object_declarations};
pub use laws::declarations_read_back;
pub use successor::push_successor;
