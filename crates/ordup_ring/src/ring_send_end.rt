ghost use Rattle.std.specs.Prelude.{◌≡◌, ◌≤◌, [], ◌∷◌, ◌++◌, length, min, IsTrue, IfOk, IfErr};
ghost use Rattle.ordup_feed.specs.Parcels.{AreInOrder, IsNext};
ghost use Rattle.ordup_feed.specs.Ends.{Sending};

use crate::ring::{Item, RingSender};
use ordup_feed::{Returned, Sender, Sends};
use ordup_objects::Refusal;
use ordup_primary::Parcel;
use std::marker::Model;

/// The primary's end of a feed: it pushes parcels, and looks up how many of them the site took.
#[derive(Drop)]
pub struct RingSendEnd {
    pub(crate) producer: RingSender,
    /// How many parcels were pushed.
    pub(crate) count: u64,
    /// How many of them the site is known to have taken.
    pub(crate) known: u64,
}

impl Model for RingSendEnd {
    ghost use Rattle.ordup_feed.specs.Ends.{Sending};

    ghost Value = { Sending };

    ghost use Rattle.ordup_ring.specs.EndsInside.{sending_of, KeepsSender};

    ghost view = { sending_of };

    ghost invariant = { KeepsSender };
}

impl RingSendEnd {
    // promise pushed refused: as SendEnd::push pushed
    // promise full: as SendEnd::push full
    /// Pushes a parcel behind all that were pushed. It takes no memory.
    ///
    /// The caller makes sure that the parcel is the next one, as for `SendEnd::push` of `ordup_feed`.
    ///
    /// It is refused `FeedFull` where the ring was full at one moment of the call, and the parcel is handed back.
    pub fn push(&mut self, parcel: Parcel) -> Result<(), Returned>
        requires { IsNext self.old.start self.old.pushed parcel }
        ensures pushed { IfOk result (λ _. self.new ≡ record self.old { pushed = self.old.pushed ++ parcel ∷ [] }) }
        ensures full { IfErr result (λ back. self.old.feed.capacity ≤ length self.old.pushed) }
        ensures refused { IfErr result (λ back. (back.refusal ≡ Refusal.FeedFull) × (back.parcel ≡ parcel) × (self.new ≡ self.old)) }
    {
        parcel.set.keeps();
        if self.producer.is_full() {
            let refusal = Refusal::FeedFull;
            return Err(Returned { refusal, parcel });
        }
        self.producer.push_reserved(Item::Next(parcel));
        self.count += 1;
        Ok(())
    }

    // promise full same: as SendEnd::push full
    /// Whether the ring is full at one moment of the call: then a push would be refused. It takes no memory.
    pub fn is_full(&mut self) -> bool
        ensures full { IsTrue result → self.old.feed.capacity ≤ length self.old.pushed }
        ensures same { self.new ≡ self.old }
    {
        self.producer.is_full()
    }

    // promise order: as SendEnd::look order
    // promise answer risen looked: as SendEnd::look answer
    /// How many parcels the site took, as the ring says now. It takes no memory.
    pub fn look(&mut self) -> u64
        ensures answer { result ≡ min self.new.known (length self.new.pushed) }
        ensures risen { self.old.known ≤ self.new.known }
        ensures looked { self.new ≡ record self.old { known = self.new.known } }
        ensures order { AreInOrder self.new.start self.new.pushed }
    {
        let free = self.producer.slots();
        let capacity = self.producer.capacity();
        self.known = if free < capacity {
            self.count - (capacity - free) as u64
        } else {
            self.known.max(self.count)
        };
        self.known.min(self.count)
    }
}

impl Sends for RingSendEnd {
    ghost sending = { λ end. end };
}

impl Sender<()> for RingSendEnd {
    fn push(&mut self, _rt: &(), parcel: Parcel) -> Result<(), Returned> {
        RingSendEnd::push(self, parcel)
    }

    fn is_full(&mut self, _rt: &()) -> bool {
        RingSendEnd::is_full(self)
    }

    fn look(&mut self, _rt: &()) -> u64 {
        RingSendEnd::look(self)
    }
}
