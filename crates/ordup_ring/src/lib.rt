//! The feed of a site as a ring of parcels from the primary to the site, for programs whose calls may wait for nobody. Each end may be
//! in a thread of its own.
//!
//! What the layers above rely on: its ends are those of a kind of feed (`Feeds` of `ordup_feed`). What the site took is a prefix of
//! what was pushed, numbered 1, 2, 3 and so on, and legal. The primary knows at most the number that the site took.
//!
//! The ring says itself how many parcels the site took: as many as were pushed, but for those whose slots are not free. So a parcel
//! is told by the step that takes it.
#![tactic(auto)]

mod ring;
mod ring_feed;
mod ring_send_end;
mod ring_take_end;

pub use ring_feed::{RingFeed, compare};
pub use ring_send_end::RingSendEnd;
pub use ring_take_end::RingTakeEnd;
