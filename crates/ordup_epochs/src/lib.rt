//! A service that never stops. A cluster takes a number of updates, then it is closed, and callers go on in its successor, which counts on
//! from it. An epoch is one of these clusters. Whoever uses it does this, in order:
//!
//! 1. Declare the objects, groups, sites and limits in a `Setup`, and open the first epoch: `Epochs::new`.
//! 2. Run `Epochs::applier` for each site, in a thread of its own. It goes on from one epoch to the next.
//! 3. Run `Epochs::keep` in a thread of its own. It keeps the epoch that is open, as `Cluster::keeper`, ends it once it has its
//!    updates, starts its successor, and puts what has ended into an `Archive`.
//! 4. Let callers work, each with a `Session` of its own. A call is made in a visit, `Epochs::enter`, and a visit is short: an epoch
//!    ends once all visits have. A visit lends the `Cluster`, whose numbers count over all epochs.
//! 5. Once all callers are done, call `Epochs::stop`, join the other threads, and take the last epoch out: `Epochs::close`.
//!
//! The one contract above this layer: where a successor is started, the store that was open is handed out with all its updates, and
//! the successor begins with just what it ended with (`Stage::start_successor`, which is lent what lies under the lock).
#![tactic(auto)]

mod archive;
mod epochs;
mod stage;
mod visit;

pub use archive::{Archive, NoArchive};
pub use epochs::Epochs;
pub use stage::Stage;
pub use visit::Visit;
