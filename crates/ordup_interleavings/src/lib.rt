//! Laws of every order in which threads get the locks, and of stores that go on: no code.
//!
//! A step is one hold of a lock, as the clauses of `ordup_holds` say what it makes: of the book that it finds, or of a cell. Between two
//! holds there are a book, the cells of its sites, queries and sessions (`Moment`). A list of holds begins where a store was opened.
//!
//! What the layers above rely on: whatever the list of holds, what `ordup_world` promises of events holds after each of them, and
//! a session reads its writes.
//!
//! The rules of a feed hold after each hold, as the kit keeps them between any two steps of the two ends. Sites take parcels during
//! a turn, which counts as made at its settlements: its looks found what the site told by then, or less, and what it pushes is taken
//! later.
//!
//! Stores of which each goes on from the one before are one whole, whatever led each to its end. The successor of a closed cluster
//! goes on from it.
//!
//! Not said here: that the calls of a cluster make these holds and no others.
#![tactic(auto)]

mod laws;

pub use laws::{
    calls_make_holds, holds_are_runs, logs_grow, proposals_have_one_order,
    queries_keep_their_limits, sessions_read_their_writes, sites_have_the_fewest_rounds,
    sites_hold_prefixes, sites_keep_limits, successive_stores_have_the_fewest_rounds,
    successors_go_on,
};
