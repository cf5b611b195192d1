ghost use Rattle.std.specs.Prelude.{◌≡◌, ◌≤◌, [], ◌∷◌, ◌++◌, length, IfSome, IfNone};
ghost use Rattle.ordup_feed.specs.Parcels.{AreInOrder, IsNext};
ghost use Rattle.ordup_feed.specs.Ends.{Taking};

use crate::counter::{Counter, CounterPass, Tell};
use crate::kinds::{Taker, Takes};
use crate::queue::{Pop, Queue, QueuePass};
use ordup_primary::Parcel;
use std::alloc::Global;
use std::marker::Model;
use std::sync::{Arc, Wait};

/// The site's end of a feed: it takes the parcels in their order, and tells how many it took.
#[derive(Drop)]
pub struct TakeEnd {
    pub(crate) queue: Arc<Queue, Global>,
    pub(crate) pass: QueuePass,
    pub(crate) counter: Arc<Counter, Global>,
    pub(crate) counter_pass: CounterPass,
    /// How many parcels were taken.
    pub(crate) count: u64,
}

impl Model for TakeEnd {
    ghost use Rattle.ordup_feed.specs.Ends.{Taking};

    ghost Value = { Taking };

    ghost use Rattle.ordup_feed.specs.EndsInside.{taking_of, KeepsTaker};

    ghost view = { taking_of };

    ghost invariant = { KeepsTaker };
}

impl TakeEnd {
    // promise taken next none: a taken parcel is the next one; if none is taken nothing changes
    // promise order: as SendEnd::look order
    // promise told: as TakeEnd::tell
    /// Takes the next parcel, if there is one. It takes no memory.
    ///
    /// Its number follows those taken before it, and its set is legal after theirs.
    #[tactic(auto, using(crate::proofs::QueueMoves::pops))]
    pub fn pop<R: Wait>(&mut self, rt: &R) -> Option<Parcel>
        ensures taken { IfSome result (λ parcel. self.new ≡ record self.old { taken = self.old.taken ++ parcel ∷ [] }) }
        ensures next { IfSome result (λ parcel. IsNext self.old.start self.old.taken parcel) }
        ensures none { IfNone result (self.new ≡ self.old) }
        ensures order { AreInOrder self.new.start self.new.taken }
        ensures told { self.new.told ≤ length self.new.taken }
    {
        let parcel = self.queue.pop_as::<Pop, R>(rt, &mut self.pass)?;
        self.count += 1;
        Some(parcel)
    }

    // promise told risen: a site tells how many it took, never more, never fewer than before
    /// Tells how many parcels were taken. It takes no memory.
    pub fn tell<R: Wait>(&mut self, rt: &R)
        ensures told { self.new ≡ record self.old { told = length self.old.taken } }
        ensures risen { self.old.told ≤ self.new.told }
    {
        self.counter
            .swap_as::<Tell, R>(rt, &mut self.counter_pass, [self.count]);
    }
}

impl Takes for TakeEnd {
    ghost taking = { λ end. end };
}

impl<R: Wait> Taker<R> for TakeEnd {
    fn pop(&mut self, rt: &R) -> Option<Parcel> {
        TakeEnd::pop(self, rt)
    }

    fn tell(&mut self, rt: &R) {
        TakeEnd::tell(self, rt);
    }
}
