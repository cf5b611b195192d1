//! The counter of a feed, its rule, and its four kinds of step: make counter, split counter, tell and look.
//! `specs/CounterRule.antt` says what holds between any two steps, and what each step makes of the view of its pass.
use atomic_table::Split;
use crossbeam_utils::atomic::seq_cell::{Pass, RuledSeqCell};
use crossbeam_utils::rule::{Outcome, Protocol};

/// The view of a pass of the counter: what its end knows. No value of it is made.
pub enum CounterView {
    /// The whole pass, before it is split.
    Both,
    /// The sender's: the number that it knows.
    Known(u64),
    /// The taker's: the number that it told.
    Told(u64),
}

/// The rule of the counter.
pub struct Rises;

impl Protocol<[u64; 1], CounterView> for Rises {
    ghost use Rattle.ordup_feed.specs.CounterRule.{CounterHolds};
    ghost use Rattle.ordup_feed.specs.declared.counter.CounterView.TheVariants.{Both};

    ghost holds = { CounterHolds };

    ghost first = { Both };
}

/// The step split counter: the whole pass becomes the sender's and the taker's.
pub struct Halves;

impl Split<CounterView> for Halves {
    ghost use Rattle.ordup_feed.specs.declared.counter.CounterView.TheVariants.{Known, Told};

    ghost left = { λ v. Known 0 };

    ghost right = { λ v. Told 0 };
}

/// The step tell.
pub struct Tell;

impl Outcome<[u64; 1], CounterView> for Tell {
    ghost use Rattle.ordup_feed.specs.CounterRule.{Tells};

    ghost then = { Tells };
}

/// The step look.
pub struct Look;

impl Outcome<[u64; 1], CounterView> for Look {
    ghost use Rattle.ordup_feed.specs.CounterRule.{Looks};

    ghost then = { Looks };
}

/// The counter between the two ends of a feed.
pub type Counter = RuledSeqCell<[u64; 1], CounterView, Rises, 1>;

/// What one end knows of the counter.
pub type CounterPass = Pass<[u64; 1], CounterView>;
