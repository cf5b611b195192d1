//! The feed of a site: a queue of parcels, and a counter back. The queue is bounded, and comes from the primary. In the counter the site
//! tells how many it took. Each end may be in a thread of its own.
//!
//! What the layers above rely on: what the site took is a prefix of what was pushed, numbered 1, 2, 3 and so on, and legal. The
//! primary knows at most the number that the site told, and the site tells at most what it took.
//!
//! The two ends share the queue and the counter, each in an `Arc`. What an end knows of either is a pass, which has no bytes and
//! exists in proofs alone. A rule (`queue.rt`, `counter.rt`) says what holds between any two steps of the two threads, whatever
//! their order, and what a step makes of the view of the pass that takes it. The type of an end keeps that its two passes belong to
//! its queue and its counter. So contracts see of an end its own list and its own place alone.
#![tactic(auto)]

mod counter;
mod feed;
mod kinds;
mod laws;
mod queue;
mod send_end;
mod take_end;

pub use feed::Feed;
pub use kinds::{Feeds, Sender, Sends, Taker, Takes};
pub use laws::{known_is_at_most_told, taken_is_a_prefix_of_pushed};
pub use send_end::{Returned, SendEnd};
pub use take_end::TakeEnd;
