//! The limits of sites, and ledgers of what they lag by. A limit is on the weight of the updates by which a site may lag.
//!
//! What the layers above rely on: a table says which limit a span passes first, of those in force at its end, in order of
//! declaration; and these are a test of spans. A ledger, which is kept while the log grows and the site reports, agrees with that
//! test. So does the ledger of a store, for each update that is added.
//!
//! There are three ways to ask:
//!
//! - **A table**, `LimitTable`, is for a span that is asked about once. It has the limits of one site, each with the place from
//!   which it holds, in the order of these places, and beside them the last limit on each scope. Those are in force from the last
//!   entry on, so a settlement looks at no entry. `over` asks the log for the span on all objects first, and for another one only
//!   where a limit is below that: no object and no group weighs more.
//! - **A ledger**, `LagLedger`, is for a span whose two ends move on. For each limit it keeps two weights on the limit's scope
//!   (`lag_weights.rt`): what the updates up to the extended place weigh, and what is allowed, which is the amount and what the
//!   updates up to the reported place weigh. `extend` and `reported` raise one of the two, change by change. A mask for each object
//!   says which limits a change of it counts on (`masks.rt`), and one mask more says which limits are passed. So a ledger costs by
//!   the changes of an update, and not by the number of limits or the lag of the site. It takes all its memory in `new`: where a
//!   limit changes, its weights are made anew from the log.
//! - **The ledger of a store**, `StoreLedger`, is for a primary, whose sites lag behind one log. An update is added once, whatever
//!   the number of sites. What it weighs is kept by scope and not by limit. Each site has an amount for each scope that there may
//!   be; where it has no limit that is 10^18, which no log weighs (`site_ledger.rt`). For each scope there is a weight up to which
//!   all sites keep their limits. Only where the updates weigh more are the sites looked at one by one. Reports raise what a site
//!   keeps, so that weight stays good until a limit changes.
#![tactic(auto)]

mod entries;
mod lag_ledger;
mod lag_weights;
mod laws;
mod limit;
mod limit_entry;
mod limit_list;
mod limit_table;
mod marks;
mod masks;
mod site_ledger;
pub mod sizes;
mod store_ledger;
mod totals;
mod weights;

pub use lag_ledger::LagLedger;
pub use laws::{
    empty_spans_keep_limits, later_spans_keep_limits, limits_by_place_are_tests,
    limits_in_force_are_a_limit_test, limits_in_force_keep_their_numbers,
    longer_histories_keep_ledgers, longer_histories_keep_limits, tests_join,
};
pub use limit::Limit;
pub use limit_entry::LimitEntry;
pub use limit_table::{LimitTable, check_scope};
pub use ordup_log::{GroupId, Groups, Scope};
pub use store_ledger::StoreLedger;
