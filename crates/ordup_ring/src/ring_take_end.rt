ghost use Rattle.std.specs.Prelude.{◌≡◌, ◌≤◌, [], ◌∷◌, ◌++◌, length, IfSome, IfNone};
ghost use Rattle.ordup_feed.specs.Parcels.{AreInOrder, IsNext};
ghost use Rattle.ordup_feed.specs.Ends.{Taking};

use crate::ring::{Item, RingTaker};
use ordup_feed::{Taker, Takes};
use ordup_primary::Parcel;
use std::marker::Model;

/// The site's end of a feed: it takes the parcels in their order. A parcel is told by the step that takes it.
#[derive(Drop)]
pub struct RingTakeEnd {
    pub(crate) consumer: RingTaker,
}

impl Model for RingTakeEnd {
    ghost use Rattle.ordup_feed.specs.Ends.{Taking};

    ghost Value = { Taking };

    ghost use Rattle.ordup_ring.specs.EndsInside.{taking_of, KeepsTaker};

    ghost view = { taking_of };

    ghost invariant = { KeepsTaker };
}

impl RingTakeEnd {
    // promise taken next none: as TakeEnd::pop taken
    // promise order: as SendEnd::look order
    // promise told: as TakeEnd::tell
    /// Takes the next parcel, if there is one. It takes no memory.
    ///
    /// Its number follows those taken before it, and its set is legal after theirs.
    pub fn pop(&mut self) -> Option<Parcel>
        ensures taken { IfSome result (λ parcel. self.new ≡ record self.old { taken = self.old.taken ++ parcel ∷ []; told = self.new.told }) }
        ensures next { IfSome result (λ parcel. IsNext self.old.start self.old.taken parcel) }
        ensures none { IfNone result (self.new ≡ self.old) }
        ensures order { AreInOrder self.new.start self.new.taken }
        ensures told { self.new.told ≡ length self.new.taken }
    {
        let Ok(item) = self.consumer.pop() else {
            return None;
        };
        let Item::Next(parcel) = item else {
            unreachable!()
        };
        parcel.set.keeps();
        Some(parcel)
    }

    // promise: as TakeEnd::tell
    /// What was taken is told: nothing is to be done.
    pub fn tell(&mut self)
        ensures { self.new ≡ record self.old { told = length self.old.taken } }
    {
        let _ = &self.consumer;
    }
}

impl Takes for RingTakeEnd {
    ghost taking = { λ end. end };
}

impl Taker<()> for RingTakeEnd {
    fn pop(&mut self, _rt: &()) -> Option<Parcel> {
        RingTakeEnd::pop(self)
    }

    fn tell(&mut self, _rt: &()) {
        RingTakeEnd::tell(self);
    }
}
