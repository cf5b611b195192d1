//! The threaded store as a static library, for C and other languages: declarations, a book, sites and queries, each behind a handle that
//! the host keeps under a lock of its own. `clients/c/ordup_holds.h` declares its functions, and says what their callers owe.
//!
//! The one contract above this layer: a call does what the hold of its name does to what its handle is of, or says by its status why it
//! did nothing. The feed between a book and a site lies inside: the host carries no update and tells no place.
#![tactic(auto)]

mod book;
mod cluster;
mod handle;
mod held;
mod open_book;
mod open_query;
mod open_site;
mod opening;
mod parts;
mod primary;
mod query;
mod record;
mod setup;
mod site;
mod status;
mod thing;
