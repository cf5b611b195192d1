ghost use Rattle.std.specs.Prelude.{◌≡◌, ◌≤◌, [], ◌∷◌, ◌++◌, length, min, IsTrue, IfOk, IfErr};
ghost use Rattle.ordup_feed.specs.Parcels.{AreInOrder, IsNext};
ghost use Rattle.ordup_feed.specs.Ends.{Sending};

use crate::counter::{Counter, CounterPass, Look};
use crate::kinds::{Sender, Sends};
use crate::queue::{Push, Queue, QueuePass};
use ordup_objects::Refusal;
use ordup_primary::Parcel;
use std::alloc::Global;
use std::marker::Model;
use std::sync::{Arc, Wait};

/// The primary's end of a feed: it pushes parcels, and looks up how many of them the site took.
#[derive(Drop)]
pub struct SendEnd {
    pub(crate) queue: Arc<Queue, Global>,
    pub(crate) pass: QueuePass,
    pub(crate) counter: Arc<Counter, Global>,
    pub(crate) counter_pass: CounterPass,
    /// How many parcels were pushed.
    pub(crate) count: u64,
}

impl Model for SendEnd {
    ghost use Rattle.ordup_feed.specs.Ends.{Sending};

    ghost Value = { Sending };

    ghost use Rattle.ordup_feed.specs.EndsInside.{sending_of, KeepsSender};

    ghost view = { sending_of };

    ghost invariant = { KeepsSender };
}

/// A parcel that a feed did not take, and why.
#[derive(Drop)]
pub struct Returned {
    /// `FeedFull`.
    pub refusal: Refusal,
    /// The parcel.
    pub parcel: Parcel,
}

impl SendEnd {
    // promise pushed refused: a parcel goes behind those pushed; one that comes back changes nothing
    // promise full: a feed is full, and hands a parcel back, only after as many pushes as it can hold
    /// Pushes a parcel behind all that were pushed. It takes no memory.
    ///
    /// The caller makes sure that the parcel is the next one: its number follows the last one pushed and is at most 1,000,000, and
    /// its set is legal after those pushed. What `Primary::next_for` gives is, where the updates before it were pushed.
    ///
    /// It is refused `FeedFull` where the queue was full at one moment of the call, and the parcel is handed back.
    pub fn push<R: Wait>(&mut self, rt: &R, parcel: Parcel) -> Result<(), Returned>
        requires { IsNext self.old.start self.old.pushed parcel }
        ensures pushed { IfOk result (λ _. self.new ≡ record self.old { pushed = self.old.pushed ++ parcel ∷ [] }) }
        ensures full { IfErr result (λ back. self.old.feed.capacity ≤ length self.old.pushed) }
        ensures refused { IfErr result (λ back. (back.refusal ≡ Refusal.FeedFull) × (back.parcel ≡ parcel) × (self.new ≡ self.old)) }
    {
        parcel.set.keeps();
        match self.queue.push_as::<Push, R>(rt, &mut self.pass, parcel) {
            Ok(()) => {
                self.count += 1;
                Ok(())
            }
            Err(parcel) => {
                let refusal = Refusal::FeedFull;
                Err(Returned { refusal, parcel })
            }
        }
    }

    // promise full same: as SendEnd::push full
    /// Whether the queue is full at one moment of the call: then a push would be refused. It takes no memory.
    pub fn is_full(&mut self) -> bool
        ensures full { IsTrue result → self.old.feed.capacity ≤ length self.old.pushed }
        ensures same { self.new ≡ self.old }
    {
        self.queue.is_full_as::<Push>(&mut self.pass)
    }

    // promise order: the parcels of an end are numbered from 1 on, and legal; no wrong body: what the types keep
    // promise answer risen looked: a look answers what the primary then knows, at most the number pushed, and never falls
    /// How many parcels the site took, as the counter says now; or the number pushed where that is less. It takes no memory.
    pub fn look<R: Wait>(&mut self, rt: &R) -> u64
        ensures answer { result ≡ min self.new.known (length self.new.pushed) }
        ensures risen { self.old.known ≤ self.new.known }
        ensures looked { self.new ≡ record self.old { known = self.new.known } }
        ensures order { AreInOrder self.new.start self.new.pushed }
    {
        let found = self.counter.load_as::<Look, R>(rt, &mut self.counter_pass);
        found[0].min(self.count)
    }
}

impl Sends for SendEnd {
    ghost sending = { λ end. end };
}

impl<R: Wait> Sender<R> for SendEnd {
    fn push(&mut self, rt: &R, parcel: Parcel) -> Result<(), Returned> {
        SendEnd::push(self, rt, parcel)
    }

    fn is_full(&mut self, _rt: &R) -> bool {
        SendEnd::is_full(self)
    }

    fn look(&mut self, rt: &R) -> u64 {
        SendEnd::look(self, rt)
    }
}
