//! The ring between the two ends of a feed, and its rule. `specs/RingRule.antt` says what may come after what.
use ordup_objects::Values;
use ordup_primary::Parcel;
use rtrb::{Consumer, Producer, Protocol};
use std::alloc::Global;

/// What goes through the ring.
#[derive(Drop)]
pub enum Item {
    /// The initial state, which comes first and once, as the feed is made.
    Start(Values),
    /// A parcel.
    Next(Parcel),
}

/// The rule of the ring.
pub struct InOrder;

impl Protocol<Item> for InOrder {
    ghost use Rattle.ordup_ring.specs.RingRule.{MayCome};

    ghost allows = { MayCome };
}

/// The sender's end of the ring.
pub type RingSender = Producer<Item, Global, InOrder>;

/// The taker's end of the ring.
pub type RingTaker = Consumer<Item, Global, InOrder>;
