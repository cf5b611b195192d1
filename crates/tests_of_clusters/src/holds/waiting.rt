//! Waiting for an update, over turns in memory.
ghost use Rattle.std.specs.Prelude.{◌≡◌, false};

use ordup_cluster::holds::{Turns, until};
use ordup_objects::Refusal;
use std::sync::Wait;
use std::test::Fail;
use test_fixtures::{expect, expect_eq};

/// Turns in memory. Two updates are acknowledged from one turn on, or none at all, and one turn may be refused a growth.
#[derive(Drop)]
struct Planned {
    /// From which turn on two updates are acknowledged, 0 for none.
    acknowledging: u64,
    /// Which turn is refused, 0 for none.
    refusing: u64,
    acked: u64,
    made: u64,
    refused: bool,
}

impl Planned {
    fn new(acknowledging: u64, refusing: u64) -> Planned
        ensures made { result.made ≡ 0 }
        ensures fresh { result.refused ≡ false }
    {
        Planned {
            acknowledging,
            refusing,
            acked: 0,
            made: 0,
            refused: false,
        }
    }
}

impl Turns for Planned {
    ghost acked_of = { λ t. t.acked };

    ghost made_of = { λ t. t.made };

    ghost refused_of = { λ t. t.refused };

    fn turn<R: Wait>(&mut self, _rt: &R) -> Result<(), Refusal> {
        self.made += 1;
        if self.made == self.acknowledging {
            self.acked = 2;
        }
        self.refused = self.made == self.refusing;
        if self.refused {
            return Err(Refusal::NoMemory);
        }
        Ok(())
    }

    fn acked(&self) -> u64 {
        self.acked
    }

    fn made(&self) -> u64 {
        self.made
    }

    fn refused(&self) -> bool {
        self.refused
    }
}

/// Waits by fewer turns than the update needs, and by more.
// shows: until ok err
#[test]
fn waiting_ends_with_the_last_turn_or_the_acknowledgement(rt: HostRuntime) -> Result<(), Fail> {
    let mut store = Planned::new(3, 0);
    expect_eq!(&rt; until(&rt, &mut store, 2, 2), Err(Refusal::NotYet { number: 2 }));
    expect_eq!(&rt; store.made, 2);
    let mut store = Planned::new(3, 0);
    expect_eq!(&rt; until(&rt, &mut store, 2, 5), Ok(()));
    expect_eq!(&rt; store.made, 3);
    Ok(())
}

/// Waits while a turn is refused a growth.
// shows: until ok err
#[test]
fn waiting_ends_with_a_refused_growth(rt: HostRuntime) -> Result<(), Fail> {
    for turns in [2, 5] {
        let mut store = Planned::new(0, 2);
        expect_eq!(&rt; until(&rt, &mut store, 2, turns), Err(Refusal::NoMemory));
        expect_eq!(&rt; store.made, 2);
        expect!(&rt; store.refused());
    }
    Ok(())
}
