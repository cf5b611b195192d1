//! The primary: declarations, the log, and when an update is acknowledged.
//!
//! What the layers above rely on: a settlement decides the head once, by what the sites had reported at that moment, and
//! acknowledges it exactly when each site that it forced has reported it. So the acknowledged updates that a site has not reported
//! weigh at most each of its limits. No schedule that keeps the limits of a site has fewer rounds than the site.
//!
//! The primary owns the setup, the log, and the limits of each site, which begin as a copy of those that were declared. So a setup
//! stays as it was declared. Of each site it keeps how many updates were sent to it, how many it last reported, what it had
//! reported at the decision of each place (`Reports`, as the changes of that number), its rounds, and a window for each round. It
//! keeps the ledger of the store too, which no contract sees. It knows the values of no site.
//!
//! A settlement adds the head to the ledger, finds the forced sites, takes the memory for one more entry in the lists of these and of
//! the sites that reported since the last decision, and then puts the decision down. At the other sites it writes nothing: they
//! reported what they had reported at the decision before. The first two steps take no memory and change nothing that is seen, and
//! adding the head again adds nothing. So want of memory leaves all as it was. A later settlement of the same head only looks for the
//! sites that it waits for, and takes no memory. A round and its window are put down together and never change. No code makes these
//! rounds the fewest: that follows from `IsPrimary` by the law of `ordup_rounds`.
#![tactic(auto)]

mod decisions;
mod laws;
mod limit_tables;
mod parcel;
mod primary;
mod progress;
mod reports;
mod settled;
mod setup;
mod site_list;
mod site_mask;
mod starting;

pub use laws::next_updates_may_follow;
pub use ordup_limits::{GroupId, Groups, LimitTable, Scope};
pub use ordup_rounds::Window;
pub use parcel::Parcel;
pub use primary::Primary;
pub use settled::Settled;
pub use setup::Setup;
pub use site_list::SiteList;
