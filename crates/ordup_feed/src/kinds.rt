//! What a kind of feed gives, whatever carries its parcels. `H` is what a call is lent: a runtime where the call may wait, and `()` where
//! it waits for nobody.
ghost use Rattle.std.specs.Prelude.{◌≡◌, ◌≤◌, [], ◌∷◌, ◌++◌, length, min, IsTrue, None, IfOk, IfErr, IfSome, IfNone};
ghost use Rattle.ordup_objects.specs.Refusals.{IsRefusal};
ghost use Rattle.ordup_objects.specs.Tables.{initial_state};
ghost use Rattle.ordup_feed.specs.Parcels.{AreInOrder, IsNext, feed_refusal};
ghost use Rattle.ordup_feed.specs.Ends.{AreNewEnds, Sending, Taking};

use crate::send_end::Returned;
use ordup_objects::{ObjectTable, Refusal};
use ordup_primary::Parcel;
use std::alloc::Global;

/// A primary's end of a feed, as contracts see it.
pub trait Sends: Drop {
    ghost sending: { Self → Sending };
}

/// The calls of a primary's end.
pub trait Sender<H>: Sends {
    /// As `SendEnd::push`.
    fn push(&mut self, rt: &H, parcel: Parcel) -> Result<(), Returned>
        requires { IsNext (Self.sending self.old).start (Self.sending self.old).pushed parcel }
        ensures pushed { IfOk result (λ _. Self.sending self.new ≡ record (Self.sending self.old) { pushed = (Self.sending self.old).pushed ++ parcel ∷ [] }) }
        ensures full { IfErr result (λ back. (Self.sending self.old).feed.capacity ≤ length (Self.sending self.old).pushed) }
        ensures refused { IfErr result (λ back. (back.refusal ≡ Refusal.FeedFull) × (back.parcel ≡ parcel) × (Self.sending self.new ≡ Self.sending self.old)) };

    /// As `SendEnd::is_full`.
    fn is_full(&mut self, rt: &H) -> bool
        ensures full { IsTrue result → (Self.sending self.old).feed.capacity ≤ length (Self.sending self.old).pushed }
        ensures same { Self.sending self.new ≡ Self.sending self.old };

    /// As `SendEnd::look`.
    fn look(&mut self, rt: &H) -> u64
        ensures answer { result ≡ min (Self.sending self.new).known (length (Self.sending self.new).pushed) }
        ensures risen { (Self.sending self.old).known ≤ (Self.sending self.new).known }
        ensures looked { Self.sending self.new ≡ record (Self.sending self.old) { known = (Self.sending self.new).known } };
}

/// A site's end of a feed, as contracts see it.
pub trait Takes: Drop {
    ghost taking: { Self → Taking };
}

/// The calls of a site's end.
pub trait Taker<H>: Takes {
    /// As `TakeEnd::pop`; but the end may tell of the parcel already.
    fn pop(&mut self, rt: &H) -> Option<Parcel>
        ensures taken { IfSome result (λ parcel. Self.taking self.new ≡ record (Self.taking self.old) { taken = (Self.taking self.old).taken ++ parcel ∷ []; told = (Self.taking self.new).told }) }
        ensures next { IfSome result (λ parcel. IsNext (Self.taking self.old).start (Self.taking self.old).taken parcel) }
        ensures none { IfNone result (Self.taking self.new ≡ Self.taking self.old) }
        ensures order { AreInOrder (Self.taking self.new).start (Self.taking self.new).taken };

    /// As `TakeEnd::tell`.
    fn tell(&mut self, rt: &H)
        ensures { Self.taking self.new ≡ record (Self.taking self.old) { told = length (Self.taking self.old).taken } };
}

/// A kind of feed.
pub trait Feeds {
    /// The primary's end.
    type Sender: Sends;

    /// The site's end.
    type Taker: Takes;

    /// As `Feed::new`.
    fn ends(
        alloc: Global,
        objects: &ObjectTable,
        capacity: u64,
    ) -> Result<(Self::Sender, Self::Taker), Refusal>
        ensures ends { IfOk result (λ ends. AreNewEnds (initial_state objects.now) capacity (Self.Sender.sending ends.0) (Self.Taker.taking ends.1)) }
        ensures allowed { IfOk result (λ _. feed_refusal capacity ≡ None) }
        ensures refused { IfErr result (λ e. IsRefusal (feed_refusal capacity) e) };
}
