//! The queue of a feed, its rule, and its six kinds of step: make, split, push taken, push refused full, pop taken and pop found
//! none. `specs/QueueRule.antt` says what holds between any two steps, and what each step makes of the view of its pass.
ghost use Rattle.std.specs.Prelude.{List, ℤ};

use atomic_table::Split;
use crossbeam_queue::protocol::{Lesson, Outcome, Protocol};
use crossbeam_queue::{Pass, RuledArrayQueue};
use ordup_primary::Parcel;
use std::collections::LinkedList;
use std::marker::{Brand, PhantomData};

/// What a pass of the queue knows. No value of it is made.
pub enum View {
    /// The whole pass, before it is split: nothing was pushed, and there is no state yet.
    Whole,
    /// The sender's: the initial state, and the parcels that were pushed.
    Sender(LinkedList<i64>, LinkedList<Parcel>),
    /// The taker's: the initial state, and the parcels that were taken.
    Taker(LinkedList<i64>, LinkedList<Parcel>),
}

/// The rule of the queue.
pub struct InOrder;

impl Protocol<Parcel, View> for InOrder {
    ghost use Rattle.ordup_feed.specs.QueueRule.{QueueHolds};
    ghost use Rattle.ordup_feed.specs.declared.queue.View.TheVariants.{Whole};

    ghost holds = { QueueHolds };

    ghost first = { Whole };
}

/// The initial state of a feed, which is picked where the feed is made.
pub trait Start {
    ghost start: { List ℤ };
}

impl Start for Brand {
    ghost use Rattle.std.specs.Prelude.{[]};

    ghost start = { [] };
}

/// The step split: the whole pass becomes the sender's and the taker's.
pub struct Ends<J: Start>(PhantomData<J>);

impl<J: Start> Split<View> for Ends<J> {
    ghost use Rattle.std.specs.Prelude.{[]};
    ghost use Rattle.ordup_feed.specs.declared.queue.View.TheVariants.{Sender, Taker};

    ghost left = { λ v. Sender J.start [] };

    ghost right = { λ v. Taker J.start [] };
}

/// The steps push taken, and push refused full.
pub struct Push;

impl Outcome<Parcel, View> for Push {
    ghost use Rattle.ordup_feed.specs.QueueRule.{Pushed};

    ghost then = { Pushed };
}

impl Lesson<Parcel, View> for Push {
    ghost use Rattle.ordup_feed.specs.QueueRule.{IsBackOfPushed};

    ghost fact = { IsBackOfPushed };
}

/// The steps pop taken, and pop found none.
pub struct Pop;

impl Outcome<Parcel, View> for Pop {
    ghost use Rattle.ordup_feed.specs.QueueRule.{Popped};

    ghost then = { Popped };
}

impl Lesson<Parcel, View> for Pop {
    ghost fact = { λ v items. Unit {0} };
}

/// The queue between the two ends of a feed.
pub type Queue = RuledArrayQueue<Parcel, View, InOrder>;

/// What one end knows of the queue.
pub type QueuePass = Pass<Parcel, View>;
