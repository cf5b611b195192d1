ghost use Rattle.std.specs.Prelude.{◌≡◌, ◌+◌, ◌^◌, ◌<◌, true, false, IfOk, OnOk, IfErr, OnErr};

use crate::cluster::Cluster;
use ordup_holds::Turns;
use ordup_objects::Refusal;
use std::sync::Wait;

// promise: the turns of a wait are counted, and the last answer is kept
/// The turns of a store's book that a caller makes while it waits for an update. Each of them is one hold of the lock, and between two
/// of them the caller sleeps for a millisecond at most: until a site told something, where the update is the head, and else until the
/// one before it is acknowledged.
#[derive(Drop)]
pub(crate) struct BookTurns<'a> {
    store: &'a Cluster,
    /// The number of the update.
    number: u64,
    /// What was heard of the sites before the last turn.
    heard: u64,
    acked: u64,
    made: u64,
    refused: bool,
}

impl<'a> BookTurns<'a> {
    /// No turn yet for the update with this number, of a book in which so many updates are acknowledged.
    pub(crate) fn none(store: &'a Cluster, number: u64, acked: u64) -> BookTurns<'a>
        ensures acked { result.acked ≡ acked }
        ensures made { result.made ≡ 0 }
        ensures refused { result.refused ≡ false }
    {
        BookTurns {
            store,
            number,
            heard: 0,
            acked,
            made: 0,
            refused: false,
        }
    }

    /// The first turn, which was made in the hold that numbered the update. This was heard of the sites before it.
    pub(crate) fn first(
        store: &'a Cluster,
        number: u64,
        heard: u64,
        answer: Result<u64, Refusal>,
    ) -> BookTurns<'a>
        ensures acked { IfOk answer (λ acked. result.acked ≡ acked) }
        ensures made { result.made ≡ 1 }
        ensures ok { OnOk answer (result.refused ≡ false) }
        ensures err { OnErr answer (result.refused ≡ true) }
    {
        let mut turns = BookTurns {
            heard,
            ..BookTurns::none(store, number, 0)
        };
        let _ = turns.count(answer);
        turns
    }

    /// Counts a turn that was made, and keeps what it answered.
    fn count(&mut self, answer: Result<u64, Refusal>) -> Result<(), Refusal>
        requires { self.old.made + 1 < 2 ^ 64 }
        ensures acked { IfOk answer (λ acked. self.new.acked ≡ acked) }
        ensures made { self.new.made ≡ self.old.made + 1 }
        ensures ok { OnOk answer (self.new.refused ≡ false) }
        ensures err { OnErr answer (self.new.refused ≡ true) }
        ensures counted { OnOk result (self.new.refused ≡ false) }
        ensures refused { IfErr result (λ e. (e ≡ Refusal.NoMemory) × (self.new.refused ≡ true)) }
    {
        self.made += 1;
        match answer {
            Ok(acked) => {
                self.acked = acked;
                self.refused = false;
                Ok(())
            }
            Err(_) => {
                self.refused = true;
                Err(Refusal::NoMemory)
            }
        }
    }
}

impl Turns for BookTurns<'_> {
    ghost acked_of = { λ t. t.acked };

    ghost made_of = { λ t. t.made };

    ghost refused_of = { λ t. t.refused };

    fn turn<R: Wait>(&mut self, rt: &R) -> Result<(), Refusal> {
        let store = self.store;
        if self.made > 0 {
            store.pause_for(rt, self.number, self.heard);
        }
        self.heard = store.listen();
        let answer = store.turn(rt);
        self.count(answer)
    }

    fn acked(&self) -> u64 {
        self.acked
    }

    fn made(&self) -> u64 {
        self.made
    }

    fn refused(&self) -> bool {
        self.refused
    }
}
