ghost use Rattle.std.specs.Prelude.{◌≡◌, ◌<◌, ◌≤◌, None, [], IfOk, IfErr, length, take};
ghost use Rattle.ordup_objects.specs.Refusals.{IsRefusal};
ghost use Rattle.ordup_objects.specs.States.{IsState};
ghost use Rattle.ordup_objects.specs.Tables.{initial_state};
ghost use Rattle.ordup_feed.specs.Parcels.{feed_refusal};
ghost use Rattle.ordup_feed.specs.Ends.{AreNewEnds};

use crate::ring::{InOrder, Item};
use crate::ring_send_end::RingSendEnd;
use crate::ring_take_end::RingTakeEnd;
use ordup_feed::Feeds;
use ordup_objects::sizes::GREATEST_CAPACITY;
use ordup_objects::{ObjectTable, Refusal, Values};
use rtrb::RingBuffer;
use std::alloc::{AllocError, Global};

/// Makes feeds.
pub struct RingFeed;

impl RingFeed {
    // promise ends allowed refused: as Feed::new
    /// The two ends of a feed that can hold `capacity` parcels, 1 to 1,024, over the initial values of the objects.
    ///
    /// It takes all the memory that the ends ever need. It is refused `OutOfRange` for the capacity, and `NoMemory`.
    pub fn new(
        alloc: Global,
        objects: &ObjectTable,
        capacity: u64,
    ) -> Result<(RingSendEnd, RingTakeEnd), Refusal>
        ensures ends { IfOk result (λ ends. AreNewEnds (initial_state objects.now) capacity ends.0 ends.1) }
        ensures allowed { IfOk result (λ _. feed_refusal capacity ≡ None) }
        ensures refused { IfErr result (λ e. IsRefusal (feed_refusal capacity) e) }
    {
        if capacity == 0 || capacity > GREATEST_CAPACITY {
            return Err(Refusal::OutOfRange);
        }
        let values = Values::initial(alloc, objects)?;
        values.keeps();
        Ok(open(alloc, values, capacity as usize)?)
    }
}

impl Feeds for RingFeed {
    type Sender = RingSendEnd;

    type Taker = RingTakeEnd;

    fn ends(
        alloc: Global,
        objects: &ObjectTable,
        capacity: u64,
    ) -> Result<(RingSendEnd, RingTakeEnd), Refusal> {
        RingFeed::new(alloc, objects, capacity)
    }
}

/// Makes a feed over an initial state, which is the first that goes through its ring.
fn open(
    alloc: Global,
    values: Values,
    capacity: usize,
) -> Result<(RingSendEnd, RingTakeEnd), AllocError>
    requires spare { 0 < capacity }
    requires state { IsState values }
    ensures { IfOk result (λ ends. AreNewEnds values capacity ends.0 ends.1) }
{
    let (mut producer, mut consumer) = match RingBuffer::<Item>::with_protocol::<Global, InOrder>(
        alloc, capacity,
    ) {
        Ok(ends) => ends,
        Err(refused) => {
            drop(values);
            return Err(refused);
        }
    };
    producer.push_reserved(Item::Start(values));
    consumer.slots_beside(&mut producer);
    drop(consumer.pop_known());
    producer.slots_beside(&mut consumer);
    let sender = RingSendEnd {
        producer,
        count: 0,
        known: 0,
    };
    let taker = RingTakeEnd { consumer };
    Ok((sender, taker))
}

// promise start prefix known same: taken parcels are a prefix of those pushed; the primary knows at most as many as were taken
/// Compares the two ends of one feed, in one hand, and changes nothing.
///
/// So between any two steps of the two ends what was taken is a prefix of what was pushed, and the sender knows at most the number
/// that was taken.
pub fn compare(sender: &mut RingSendEnd, taker: &mut RingTakeEnd)
    requires { taker.old.feed ≡ sender.old.feed }
    ensures same { (sender.new ≡ sender.old) × (taker.new ≡ taker.old) }
    ensures start { taker.old.start ≡ sender.old.start }
    ensures prefix { taker.old.taken ≡ take (length taker.old.taken) sender.old.pushed }
    ensures known { sender.old.known ≤ taker.old.told }
{
    taker.consumer.slots_beside(&mut sender.producer);
    sender.producer.slots_beside(&mut taker.consumer);
}
