ghost use Rattle.std.specs.Prelude.{◌≡◌, ℕ, Bool, ◌+◌, ◌^◌, ◌<◌, ◌≤◌, true, false, OnOk, IfErr, OnErr};
ghost use Rattle.ordup_holds.specs.Waiting.{EndsUnmet, StaysPending};

use crossbeam_utils::Backoff;
use ordup_objects::Refusal;
use std::sync::Wait;

/// The turns of a store. A caller makes them while it waits until an update is acknowledged.
pub trait Turns {
    ghost acked_of: { Self → ℕ };

    ghost made_of: { Self → ℕ };

    ghost refused_of: { Self → Bool };

    /// Makes one more turn. It is refused `NoMemory` where the turn was refused a growth.
    fn turn<R: Wait>(&mut self, rt: &R) -> Result<(), Refusal>
        requires { made_of self.old + 1 < 2 ^ 64 }
        ensures made { made_of self.new ≡ made_of self.old + 1 }
        ensures ok { OnOk result (refused_of self.new ≡ false) }
        ensures err { IfErr result (λ e. (e ≡ Refusal.NoMemory) × (refused_of self.new ≡ true)) };

    /// How many updates are acknowledged, as far as the turns have found.
    fn acked(&self) -> u64
        ensures { result ≡ acked_of self.now };

    /// How many turns were made.
    fn made(&self) -> u64
        ensures { result ≡ made_of self.now };

    /// Whether the last turn was refused a growth.
    fn refused(&self) -> bool
        ensures { result ≡ refused_of self.now };
}

// promise ok err: a wait ends well only if acknowledged, with `NoMemory` only after a refused growth, with `NotYet` only after its turns
/// Makes turns until the update with this number is acknowledged, with a pause before each, and at most `turns` in all.
///
/// It is refused `NotYet` where that many turns are made and the update is not acknowledged, and `NoMemory` as soon as a turn was
/// refused a growth.
pub fn until<R: Wait, T: Turns>(
    rt: &R,
    store: &mut T,
    number: u64,
    turns: u64,
) -> Result<(), Refusal>
    requires made { T.made_of store.old ≤ turns }
    requires fresh { T.refused_of store.old ≡ false }
    ensures ok { OnOk result ((T.refused_of store.new ≡ false) × (number ≤ T.acked_of store.new)) }
    ensures err { IfErr result (EndsUnmet number turns (record { acked = T.acked_of store.new; made = T.made_of store.new; refused = T.refused_of store.new })) }
{
    let pause = Backoff::new();
    while store.acked() < number {
        if store.made() >= turns {
            return Err(Refusal::NotYet { number });
        }
        pause.spin();
        store.turn(rt)?;
    }
    Ok(())
}

// promise ok number err: the wait of a proposal ends acknowledged, or with its number
/// Makes turns until an update is acknowledged that was numbered in the hold of the first of these turns, with a pause before each
/// further one, and at most `turns` in all.
///
/// The error is the number of the update, which stands: all turns are made and it is not acknowledged, or a turn was refused a
/// growth.
pub fn until_acknowledged<R: Wait, T: Turns>(
    rt: &R,
    store: &mut T,
    number: u64,
    turns: u64,
) -> Result<(), u64>
    requires first { T.made_of store.old ≡ 1 }
    requires some { 1 ≤ turns }
    ensures ok { OnOk result ((T.refused_of store.new ≡ false) × (number ≤ T.acked_of store.new)) }
    ensures number { IfErr result (λ n. n ≡ number) }
    ensures err { OnErr result (StaysPending number turns (record { acked = T.acked_of store.new; made = T.made_of store.new; refused = T.refused_of store.new })) }
{
    if store.refused() {
        return Err(number);
    }
    match until(rt, store, number, turns) {
        Ok(()) => Ok(()),
        Err(_) => Err(number),
    }
}
