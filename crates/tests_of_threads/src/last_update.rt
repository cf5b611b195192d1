//! A keeper that is to end with an update. It ends as soon as that is numbered, though no site tells anything: none is run.
use crate::expect::made;
use crate::fixtures::opened;
use ordup_cluster::{Cluster, Session};
use std::process::Abort;
use std::sync::Wait;
use std::sync::atomic::{AtomicBool, Ordering};
use std::test::Fail;
use std::thread;
use std::time::{Clock, Duration};
use test_cluster_fixtures::promises::propose;
use test_cluster_fixtures::{Parts, TRIES, do_two, is_raised_within};
use test_fixtures::{Site, add, expect, expect_eq, x};

/// Nobody waits for the site a.
const SITES: [Site; 1] = [("a", 4, None)];

/// The keeper, and who proposes.
#[derive(Clone, Copy)]
struct All<'a> {
    cluster: &'a Cluster,
    /// Raised once the keeper has ended.
    ended: &'a AtomicBool,
}

/// Adds 1 to x. The update has this number. Then the keeper comes to its sleep, if it has not ended.
fn propose_one<R: Wait + Clock + Abort>(rt: &R, cluster: &Cluster, number: u64) {
    let set = made(rt, add(cluster.objects(), x(), 1));
    expect_eq!(rt; propose(rt, cluster, &mut Session::new(), set, 1), Ok(number));
    thread::sleep(rt, Duration::from_millis(50));
}

/// The keeper does not end with the first of two updates.
fn call<R: Wait + Clock + Abort>(rt: &R, all: &All<'_>) {
    propose_one(rt, all.cluster, 1);
    expect!(rt; !all.ended.load(Ordering::SeqCst));
    propose_one(rt, all.cluster, 2);
    expect!(rt; is_raised_within(all.ended, TRIES));
}

impl<R: Wait + Clock + Abort> Parts<R> for All<'_> {
    fn part(&self, rt: &R, number: u8) {
        if number == 0 {
            self.cluster.keeper_until(rt, 2);
            self.ended.store(true, Ordering::SeqCst);
        } else {
            call(rt, self);
        }
    }
}

// shows: turns
#[test]
fn a_keeper_ends_with_an_update_of_which_no_site_tells(rt: HostRuntime) -> Result<(), Fail> {
    let cluster = opened(rt.alloc(), &SITES)?;
    let all = All {
        cluster: &cluster,
        ended: &AtomicBool::new(false),
    };
    do_two(&rt, &all, 0);
    cluster.discard();
    Ok(())
}
