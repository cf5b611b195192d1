//! The two ends of a feed of any kind, as books and cells have them: a contract sees of each what it sees of the kind's own end.
ghost use Rattle.std.specs.Prelude.{◌≡◌, ◌≤◌, [], ◌∷◌, ◌++◌, length, min, IsTrue, IfOk, IfErr, IfSome, IfNone};
ghost use Rattle.ordup_feed.specs.Parcels.{IsNext};

use ordup_feed::{Returned, Sender, Sends, Taker, Takes};
use ordup_objects::Refusal;
use ordup_primary::Parcel;
use std::marker::Model;

/// The primary's end of a feed.
#[derive(Drop)]
pub struct SendSide<E: Sends> {
    end: E,
}

impl<E: Sends> Model for SendSide<E> {
    ghost use Rattle.ordup_feed.specs.Ends.{Sending};

    ghost Value = { Sending };

    ghost view = { λ s. E.sending s.end };
}

impl<E: Sends> SendSide<E> {
    /// The primary's end of a feed.
    pub(crate) fn new(end: E) -> SendSide<E>
        ensures { result ≡ E.sending end }
    {
        SendSide { end }
    }

    /// Pushes a parcel, which comes next, behind all that were pushed.
    pub(crate) fn push<H>(&mut self, rt: &H, parcel: Parcel) -> Result<(), Returned>
    where
        E: Sender<H>,
        requires { IsNext self.old.start self.old.pushed parcel }
        ensures pushed { IfOk result (λ _. self.new ≡ record self.old { pushed = self.old.pushed ++ parcel ∷ [] }) }
        ensures full { IfErr result (λ back. self.old.feed.capacity ≤ length self.old.pushed) }
        ensures refused { IfErr result (λ back. (back.refusal ≡ Refusal.FeedFull) × (back.parcel ≡ parcel) × (self.new ≡ self.old)) }
    {
        self.end.push(rt, parcel)
    }

    /// Whether the feed is full at one moment of the call.
    pub(crate) fn is_full<H>(&mut self, rt: &H) -> bool
    where
        E: Sender<H>,
        ensures full { IsTrue result → self.old.feed.capacity ≤ length self.old.pushed }
        ensures same { self.new ≡ self.old }
    {
        self.end.is_full(rt)
    }

    /// How many parcels the site took, as its end told.
    pub(crate) fn look<H>(&mut self, rt: &H) -> u64
    where
        E: Sender<H>,
        ensures answer { result ≡ min self.new.known (length self.new.pushed) }
        ensures risen { self.old.known ≤ self.new.known }
        ensures looked { self.new ≡ record self.old { known = self.new.known } }
    {
        self.end.look(rt)
    }
}

/// A site's end of a feed.
#[derive(Drop)]
pub struct TakeSide<T: Takes> {
    end: T,
}

impl<T: Takes> Model for TakeSide<T> {
    ghost use Rattle.ordup_feed.specs.Ends.{Taking};

    ghost Value = { Taking };

    ghost view = { λ s. T.taking s.end };
}

impl<T: Takes> TakeSide<T> {
    /// A site's end of a feed.
    pub(crate) fn new(end: T) -> TakeSide<T>
        ensures { result ≡ T.taking end }
    {
        TakeSide { end }
    }

    /// Takes the next parcel, if there is one.
    pub(crate) fn pop<H>(&mut self, rt: &H) -> Option<Parcel>
    where
        T: Taker<H>,
        ensures taken { IfSome result (λ parcel. self.new ≡ record self.old { taken = self.old.taken ++ parcel ∷ []; told = self.new.told }) }
        ensures next { IfSome result (λ parcel. IsNext self.old.start self.old.taken parcel) }
        ensures none { IfNone result (self.new ≡ self.old) }
    {
        self.end.pop(rt)
    }

    /// Tells how many parcels were taken.
    pub(crate) fn tell<H>(&mut self, rt: &H)
    where
        T: Taker<H>,
        ensures told { self.new ≡ record self.old { told = length self.old.taken } }
    {
        self.end.tell(rt);
    }
}
