use crate::setups::{declare_sixteen, declare_three};
use crate::tally::Tally;
use crate::waits::{propose_all, propose_one};
use ordup_cluster::{Cluster, Session};
use ordup_objects::Refusal;
use ordup_objects::sizes::MOST_UPDATES;
use ordup_primary::Setup;
use std::alloc::Global;
use std::sync::Wait;
use std::thread;
use std::thread::Threads;
use std::time::{Clock, Duration};

/// What is done in a cluster.
#[derive(Clone, Copy)]
pub(crate) enum Task {
    /// This many updates, at most as many as a log has: half of them by one caller, then the others by four.
    Rounds(u64),
    /// One update, and then nothing for this many seconds.
    Idle(u64),
}

impl Task {
    /// The task that a word names.
    pub(crate) fn of(word: &str, count: u64) -> Option<Self> {
        match word {
            "rounds" if count <= MOST_UPDATES as u64 => Some(Task::Rounds(count)),
            "idle" => Some(Task::Idle(count)),
            _ => None,
        }
    }

    /// What is declared for it.
    pub(crate) fn setup(self, alloc: Global) -> Result<Setup, Refusal> {
        match self {
            Task::Rounds(_) => declare_three(alloc),
            Task::Idle(_) => declare_sixteen(alloc),
        }
    }

    /// Does it, while the threads of the cluster run.
    pub(crate) fn run<R: Threads + Wait + Clock + Sync>(self, rt: &R, cluster: &Cluster) -> Tally {
        match self {
            Task::Rounds(count) => {
                let alone = propose_all(rt, cluster, count / 2);
                if alone.late > 0 {
                    return alone;
                }
                propose_by_four(rt, cluster, count.saturating_sub(count / 2))
            }
            Task::Idle(seconds) => {
                let late = propose_one(rt, cluster, &mut Session::new(), 0);
                thread::sleep(rt, Duration::from_secs(seconds));
                Tally { late }
            }
        }
    }
}

/// Has four callers propose this many updates.
fn propose_by_four<R: Threads + Wait + Clock + Sync>(
    rt: &R,
    cluster: &Cluster,
    count: u64,
) -> Tally {
    let (first, second) = thread::join(
        rt,
        move || propose_by_two(rt, cluster, count / 2),
        move || propose_by_two(rt, cluster, count.saturating_sub(count / 2)),
    );
    first.with(second)
}

/// Has two callers propose this many updates.
fn propose_by_two<R: Threads + Wait + Clock + Sync>(
    rt: &R,
    cluster: &Cluster,
    count: u64,
) -> Tally {
    let (first, second) = thread::join(
        rt,
        move || propose_all(rt, cluster, count / 2),
        move || propose_all(rt, cluster, count.saturating_sub(count / 2)),
    );
    first.with(second)
}
