ghost use Rattle.std.specs.Prelude.{◌≡◌, ◌<◌, [], IfOk, IfErr};
ghost use Rattle.std.specs.Arc.{arc_value};
ghost use Rattle.ordup_objects.specs.Refusals.{IsRefusal};
ghost use Rattle.ordup_objects.specs.States.{IsState};
ghost use Rattle.ordup_objects.specs.Tables.{initial_state};
ghost use Rattle.ordup_feed.specs.Parcels.{feed_refusal};
ghost use Rattle.ordup_feed.specs.Ends.{AreNewEnds};

use crate::counter::{Counter, Halves};
use crate::kinds::Feeds;
use crate::queue::{Ends, Queue, Start};
use crate::send_end::SendEnd;
use crate::take_end::TakeEnd;
use ordup_objects::sizes::GREATEST_CAPACITY;
use ordup_objects::{ObjectTable, Refusal};
use std::alloc::{AllocError, Global};
use std::marker::Brand;
use std::sync::Arc;

/// Makes feeds.
pub struct Feed;

impl Feed {
    // promise ends allowed refused: the two ends of a feed of the given capacity are made
    /// The two ends of a feed that can hold `capacity` parcels, 1 to 1,024, over the initial values of the objects.
    ///
    /// It takes all the memory that the ends ever need. It is refused `OutOfRange` for the capacity, and `NoMemory`.
    pub fn new(
        alloc: Global,
        objects: &ObjectTable,
        capacity: u64,
    ) -> Result<(SendEnd, TakeEnd), Refusal>
        ensures ends { IfOk result (λ ends. AreNewEnds (initial_state objects.now) capacity ends.0 ends.1) }
        ensures allowed { IfOk result (λ _. feed_refusal capacity ≡ None) }
        ensures refused { IfErr result (λ e. IsRefusal (feed_refusal capacity) e) }
    {
        if capacity == 0 || capacity > GREATEST_CAPACITY {
            return Err(Refusal::OutOfRange);
        }
        objects.keeps();
        Ok(open::<Brand>(alloc, objects, capacity as usize)?)
    }
}

impl Feeds for Feed {
    type Sender = SendEnd;

    type Taker = TakeEnd;

    fn ends(
        alloc: Global,
        objects: &ObjectTable,
        capacity: u64,
    ) -> Result<(SendEnd, TakeEnd), Refusal> {
        Feed::new(alloc, objects, capacity)
    }
}

/// Makes a feed whose initial state is picked.
fn open<J: Start>(
    alloc: Global,
    objects: &ObjectTable,
    capacity: usize,
) -> Result<(SendEnd, TakeEnd), AllocError>
    requires spare { 0 < capacity }
    requires start { J.start ≡ initial_state objects.now }
    requires state { IsState J.start }
    ensures { IfOk result (λ ends. AreNewEnds (initial_state objects.now) capacity ends.0 ends.1) }
{
    let (queue, mut pass) = Queue::ruled(alloc, capacity)?;
    let taker_pass = queue.another::<Ends<J>>(&mut pass);
    let (queue, taker_queue) = shared(alloc, queue)?;
    let (counter, mut counter_pass) = Counter::ruled(alloc, [0])?;
    let taker_counter_pass = counter.split_pass::<Halves>(&mut counter_pass);
    let (counter, taker_counter) = shared(alloc, counter)?;
    let sender = SendEnd {
        queue,
        pass,
        counter,
        counter_pass,
        count: 0,
    };
    let taker = TakeEnd {
        queue: taker_queue,
        pass: taker_pass,
        counter: taker_counter,
        counter_pass: taker_counter_pass,
        count: 0,
    };
    Ok((sender, taker))
}

/// A value with two owners.
fn shared<T: Drop>(alloc: Global, value: T) -> Result<(Arc<T, Global>, Arc<T, Global>), AllocError>
    ensures { IfOk result (λ two. (arc_value two.0 ≡ value) × (arc_value two.1 ≡ value)) }
{
    let one = Arc::new(alloc, value)?;
    let other = Arc::try_clone(&one)?;
    Ok((one, other))
}
