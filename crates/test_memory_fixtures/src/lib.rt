//! What tests of want of memory share: an allocator that gives a count of allocations and no more, lines of scripts with what memory
//! each takes, and a store that takes its memory from that allocator.
#![tactic(auto)]

mod group;
mod marked_lines;
mod scarce;
mod stores;

pub use group::{GROUPED, grouped};
pub use marked_lines::MarkedLine;
pub use scarce::{Heap, Scarce};
pub use stores::{declared, started};
