//! The law of the fewest rounds. It has schedules of rounds, windows and certificates. Windows show how many rounds there have to be.
//!
//! The one contract above this layer: rounds at just the places where the report is too old are the fewest of any schedule that
//! keeps the limits, shown by as many disjoint windows, each over a limit alone.
//!
//! It speaks of any test of limits and of any reports, and stands on no other crate. Nothing in it runs: it has definitions, laws,
//! and one plain struct, `Window`. The primary gives its own rounds and windows to `forced_rounds_are_fewest`, and an auditor gives
//! those of a record to `certified_rounds_are_fewest`. The proof of each law is a lemma of the same name in `proofs/`, so the
//! proofs of the crates above can cite it. `Examples.antt` has the definitions at numbers worked out by hand.
#![tactic(auto)]

mod laws;
mod window;

pub use laws::{
    certificates_join, certificates_part, certified_rounds_are_fewest, each_window_has_a_round,
    fewest_rounds_join, forced_rounds_are_fewest, no_fewer_rounds_than_windows,
    round_places_are_a_schedule,
};
pub use window::Window;
