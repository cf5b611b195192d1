//! The work of one hold of a lock. It is done by functions that are lent what the lock keeps. They take no lock and start no thread.
//! Whoever keeps a store without a `Cluster`, as a test on one thread does, calls them in this order:
//!
//! 1. `open` makes of a `Setup` the book of the primary, and the cell of each site.
//! 2. With the book, `number` numbers a message set; `turn` hears the sites, settles and sends; `number_and_turn` does both, as a
//!    proposal does; `begin` begins a query; `relimit` changes a limit of a site.
//! 3. With a cell, `take` applies the next update of its feed, and `view` reads a value.
//! 4. `until` and `until_acknowledged` make turns until an update is acknowledged, over whatever makes them (`Turns`).
//! 5. At the end `agree` compares a site with the log of the primary.
//!
//! The one contract above this layer: a book and a cell keep their facts whenever nobody holds them. What was pushed into each feed
//! are the first updates of the log, and a site reported no more than its end of the feed knows; a site holds the serial result of
//! what it took.
#![tactic(auto)]

mod agreement;
mod book;
mod numbering;
mod opening;
mod proposal_error;
mod relimiting;
mod sides;
mod site_cell;
mod turning;
mod waiting;

pub use agreement::agree;
pub use book::Book;
pub use numbering::{Numbered, begin, number, number_and_turn, number_if_and_turn};
pub use opening::{open, open_as};
pub use proposal_error::ProposalError;
pub use relimiting::relimit;
pub use site_cell::{SeenValue, SiteCell, take, view};
pub use turning::{has_work, turn};
pub use waiting::{Turns, until, until_acknowledged};
