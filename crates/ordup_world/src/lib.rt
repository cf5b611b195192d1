//! The world: a primary and its sites, stepped by events.
//!
//! A world does no input or output, reads no clock and starts no thread. Its caller decides what happens when, by the events
//! that it steps. The caller does this, in order:
//!
//! 1. **Declare.** `Setup::new`, then `object`, `group`, `site` and `limit`. What a call names is declared before it. A store
//!    needs at least one object and one site.
//! 2. **Start.** `World::start` takes the setup. Nothing can be declared after that.
//! 3. **Step.** `World::step` takes one event and answers it. After `Answer::Refused` everything is as it was before the event.
//!    Where memory was refused, the caller may step the same event again.
//! 4. **Propose.** `Event::Propose` makes a message set the next update of the log. The answer has its number. The update
//!    stands in the log now, and is not acknowledged yet.
//! 5. **Settle.** `Event::Settle` settles the head, which is the update after the last acknowledged one. After `Acked` the
//!    head is acknowledged, and the caller settles the next one. After `Round` or `Waiting` it is not: first each site of the
//!    answer has to report it, as in 6, and then the caller settles again. `NothingToSettle` says that all updates are
//!    acknowledged.
//! 6. **Send, apply, report.** `Event::Send` puts the next update into the feed of a site, `Event::Apply` has the site apply
//!    the next update of its feed, and `Event::Report` lets the primary know how many updates the site applied. The caller
//!    does so for each site at a pace of its own. After `FeedFull` the site has to apply first. What a site has not reported
//!    weighs on its limits, also where it applied it.
//! 7. **Query.** `Event::Begin` opens a query at a site, by a name and with an import limit. Its reference is what is
//!    acknowledged at that moment. Each `Event::Read` gives the value at the site and what the read imports: the value at the
//!    reference is no further away. `OverImport` says that the site is too far from the reference. A site that is behind comes
//!    nearer as it applies. `Event::End` closes the query and gives what its reads added up to; `Event::Abandon` closes it
//!    without.
//! 8. **Change a limit.** `Event::Relimit` changes a limit of a site from the head on. After `HeadPending` the head has to be
//!    acknowledged first, and after `LagOver` the site has to report more updates first.
//!
//! `Event::Show` and `World::primary` show what a world holds. `run` starts a world and steps a list of events.
//!
//! A world is a `Store`, which is the primary with its sites, and the `OpenQueries`. Each has a method for each of its events, with
//! one clause, `StepsStore` or `StepsWorld`: for every list of accepted events that it stands for, the method answers as the model
//! does, and it then stands for the list with the event. The log has all sets, so a feed is two numbers here: it holds the updates
//! from `applied + 1`, by the site, to `sent`, by the primary.
//!
//! What the layers above rely on: for every list of events the answers are the model's, and the world at the end stands for
//! the accepted events.
#![tactic(auto)]

mod event;
mod laws;
mod outcome;
mod queries;
mod runs;
pub mod sizes;
mod store;
mod world;

pub use event::{Answer, Event};
pub use laws::{limit_changes_leave_decided_places, limit_changes_leave_rounds};
pub use ordup_primary::{Primary, Settled, Setup, SiteList};
pub use ordup_query::{QueryAnswer, ReadAnswer};
pub use outcome::Run;
pub use runs::run;
pub use world::World;
