//! A plan in threads. It is a list of message sets that several callers propose at once, while each site applies what comes to it.
//! `run_threads` runs one, in this order:
//!
//! 1. It opens a cluster, and deals the sets to the callers (`dealing.rt`).
//! 2. It starts a thread for the applier of each site, and one for each caller (`running.rt`). A caller proposes its sets one after
//!    another, and counts how they were answered (`caller.rt`, `tally.rt`).
//! 3. Once all callers are done, it stops the cluster and waits for the appliers.
//! 4. It closes the cluster, and answers as text what each site holds and how many rounds it is shown to need (`outcome.rt`).
//!
//! No other crate of the store starts threads. The appliers run in one scope, and the callers in a scope within it. So no caller is
//! left when the cluster is stopped, and no thread when it is closed. Once memory is refused the plan is called off: each caller
//! looks for that before it proposes. What a caller counts comes back through its handle, with the promise that it counts no more
//! proposals than it has sets.
//!
//! The one contract above this layer: the text is the outcome of the cluster that was opened with the plan's declarations. Its log has
//! an update for each set that was not refused, and no more proposals are counted than there are sets.
#![tactic(auto)]

mod caller;
mod dealing;
mod outcome;
mod running;
mod tally;

pub use running::run_threads;
