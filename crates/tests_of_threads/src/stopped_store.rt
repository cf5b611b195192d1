//! `stop` wakes the appliers and the keeper of a store, which sleep without a limit in time.
use crate::expect::made;
use crate::fixtures::{apply_at, opened};
use ordup_cluster::{Cluster, OpenGate, Session};
use std::process::Abort;
use std::sync::Wait;
use std::test::Fail;
use std::thread;
use test_cluster_fixtures::promises::propose;
use test_cluster_fixtures::{Parts, do_four};
use test_fixtures::{Site, add, expect_eq, x};

/// How often a thread yields, while the others are to come to their sleep.
const PAUSE: u64 = 1_000;

/// Neither site waits for anybody.
const FREE: [Site; 2] = [("a", 4, None), ("b", 4, None)];

/// A store of two sites.
#[derive(Clone, Copy)]
struct Store<'a> {
    cluster: &'a Cluster,
}

/// The appliers, the keeper, and who stops them. Each site has applied the one update.
impl<R: Wait + Abort> Parts<R> for Store<'_> {
    fn part(&self, rt: &R, number: u8) {
        match number {
            0 | 1 => expect_eq!(rt; apply_at(rt, self.cluster, number, &OpenGate), 1),
            2 => self.cluster.keeper(rt),
            _ => {
                let set = made(rt, add(self.cluster.objects(), x(), 1));
                expect_eq!(rt; propose(rt, self.cluster, &mut Session::new(), set, 1), Ok(1));
                for _ in 0..PAUSE {
                    thread::yield_now();
                }
                self.cluster.stop();
            }
        }
    }
}

// shows: stops
#[test]
fn a_stop_wakes_the_appliers_and_the_keeper(rt: HostRuntime) -> Result<(), Fail> {
    let cluster = opened(rt.alloc(), &FREE)?;
    do_four(&rt, &Store { cluster: &cluster }, 0);
    cluster.discard();
    Ok(())
}
