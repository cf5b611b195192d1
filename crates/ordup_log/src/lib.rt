//! The log: the one order of updates, groups, and weights.
//!
//! What the layers above rely on: each place of the log holds a set that is legal there, so each prefix of a log is a log; and
//! spans are sums of weights.
//!
//! The log keeps (`LogInside.antt` says that it fits together):
//!
//! - the sets, and the values at the start and at the end;
//! - what each change made of its object, its move, in one list for all sets;
//! - for each object what all updates weigh on it, and a row of these numbers for each 256 updates, as they were after them.
//!
//! So nothing is replayed. What the updates up to a place weigh on an object, the running weight, is at hand at the end of the log.
//! Elsewhere it is that of the last row, and the distances of the moves of at most 255 updates after it. A span of at most 255 updates
//! goes over their moves, and a longer one is the difference of two running weights; on a group it is the sum over the members. Postings,
//! the places that weigh something on an object, are made when they are asked for. `append` takes the memory for all of it before it
//! changes anything.
#![tactic(auto)]

mod added_update;
mod groups;
mod ids;
mod laws;
mod log;
mod marks;
mod moved_weights;
mod scope;

pub use groups::Groups;
pub use ids::GroupId;
pub use laws::{
    inner_spans_weigh_less, longer_histories_keep_spans, spans_join, values_move_by_spans,
};
pub use log::Log;
pub use ordup_objects::prefixes_of_legal_histories_are_legal;
pub use scope::Scope;
