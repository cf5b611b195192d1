//! A store that the threads of one process share. Whoever uses it does this, in order:
//!
//! 1. Declare the objects, groups, sites and limits in a `Setup`, and open the store: `Cluster::new`, or `Cluster::after` where updates
//!    came `before` it. That takes no lock.
//! 2. Run `Cluster::applier` for each site, in a thread of its own. It applies what comes to the site, under the lock of the site.
//! 3. Run `Cluster::keeper` in a thread of its own, or `keeper_until` for a number of updates. It makes the turns that callers leave.
//! 4. Let callers work, each with a `Session` of its own. They make their message sets of `Cluster::objects`, which takes no lock, as
//!    `sites` and `numbered`, which tell how many sites and updates there are.
//!    - `propose` numbers a set and waits until it is acknowledged, `propose_if` one with conditions, which the state after it has to
//!      meet; `settle` waits on after a `NotYet`; `relimit` changes a limit of a site; `begin` begins a query at one. Each of them takes
//!      the lock of the book.
//!    - `read` reads an object at a site, and `SiteQuery::read` does so for a query, which `end` ends. Each read takes the lock of the
//!      site. `read_when_level` waits until the site has what the session has seen, and makes turns meanwhile.
//! 5. Once all callers are done, `settle` the last update and call `finish`, so that each site is sent all. Then call `Cluster::stop`, and
//!    join the appliers and the keeper. A caller that still waits may wait in vain.
//! 6. Close the store: `Cluster::close` compares each site with the log, and leaves the primary and the sites in a `Closed`; or it
//!    is refused `Mixed` for a site that does not agree. That takes no lock. `Closed::successor` opens the store that goes on from it.
//!    `Cluster::discard` and `Closed::discard` drop a store as it is.
//!
//! The book is the primary with the sending ends of the feeds. Each site lies in a cell with the taking end of its feed. No call
//! takes a lock while it holds another. A book and a cell keep their facts by their types. A function that takes a lock itself can
//! say nothing of what it found under it, so the work of one hold is a function of `ordup_holds`, here `holds`, which is lent the
//! locked value. No fact goes from a book to a cell: `close` compares each site with the log, in memory that `new` took.
//!
//! The one contract above this layer: a book and a cell keep their facts whenever their lock is free, and a session sees no less
//! than it has seen. Each site of a closed cluster agrees with the log, and the acknowledged updates that it has not applied keep
//! its limits.
#![tactic(auto)]

mod applying;
mod bell;
mod book_turns;
mod closed;
mod closing;
mod cluster;
mod gate;
mod progress;
mod reading;
mod reserved;
mod session;
mod site_query;
mod waking;

pub use closed::Closed;
pub use cluster::{Cluster, MOST_BEFORE};
pub use gate::{Gate, OpenGate};
pub use ordup_conditions::{Bound, Condition};
pub use ordup_holds as holds;
pub use ordup_holds::{ProposalError, SeenValue};
pub use session::Session;
pub use site_query::SiteQuery;
