//! A read that waits for a site which its gate holds: it answers once the site goes on.
use crate::expect::made;
use crate::fixtures::{apply_at, opened};
use ordup_cluster::{Cluster, Session};
use ordup_objects::Refusal;
use std::process::Abort;
use std::sync::Wait;
use std::sync::atomic::{AtomicBool, Ordering};
use std::test::Fail;
use std::thread;
use test_cluster_fixtures::promises::{propose, read_when_level};
use test_cluster_fixtures::{Held, HoldingGate, Parts, TRIES, do_four, is_raised_within, seen};
use test_fixtures::{a, add, expect, expect_eq, x};

/// How often a thread yields, while another one is to come to its sleep.
const PAUSE: u64 = 1_000;

/// What the threads share.
#[derive(Clone, Copy)]
struct All<'a> {
    cluster: &'a Cluster,
    /// It holds a before the first update.
    gate: &'a HoldingGate,
    /// Raised as the read is asked for that waits.
    asked: &'a AtomicBool,
}

/// Sees the update acknowledged, and reads it at a, which is behind at first.
fn read<R: Wait + Abort>(rt: &R, all: &All<'_>) {
    let mut session = Session::new();
    let set = made(rt, add(all.cluster.objects(), x(), 1));
    expect_eq!(rt; propose(rt, all.cluster, &mut session, set, 1), Ok(1));
    let behind = Err(Refusal::Behind { applied: 0 });
    expect_eq!(rt; read_when_level(rt, all.cluster, &mut session, a(), x(), 2), behind);
    all.asked.store(true, Ordering::SeqCst);
    let level = Ok(seen(1, 1));
    expect_eq!(rt; read_when_level(rt, all.cluster, &mut session, a(), x(), TRIES), level);
    all.cluster.stop();
}

/// The applier of a, the reader, and who opens the gate.
impl<R: Wait + Abort> Parts<R> for All<'_> {
    fn part(&self, rt: &R, number: u8) {
        match number {
            0 => {
                apply_at(rt, self.cluster, 0, self.gate);
            }
            1 => read(rt, self),
            2 => {
                expect!(rt; is_raised_within(self.asked, TRIES));
                for _ in 0..PAUSE {
                    thread::yield_now();
                }
                self.gate.open();
            }
            _ => {}
        }
    }
}

// shows: Cluster::read_when_level applied seen; held sites
#[test]
fn a_read_waits_until_its_site_goes_on(rt: HostRuntime) -> Result<(), Fail> {
    let gate = HoldingGate::new(Held::BeforeApply, TRIES);
    let cluster = opened(rt.alloc(), &[("a", 4, None)])?;
    let all = All {
        cluster: &cluster,
        gate: &gate,
        asked: &AtomicBool::new(false),
    };
    do_four(&rt, &all, 0);
    expect!(&rt; !gate.gave_up());
    cluster.discard();
    Ok(())
}
