ghost use Rattle.std.specs.Prelude.{◌≤◌, IfSome, vec_len};
ghost use Rattle.ordup_plan.specs.Counting.{counted};

use crate::tally::{NONE, Tally};
use ordup_cluster::{Cluster, Session};
use ordup_objects::MessageSet;
use std::sync::Wait;
use std::sync::atomic::{AtomicBool, Ordering};

/// How many turns each proposal has.
const TURNS: u64 = 1_000_000;

/// Proposes sets one after another, in a session of its own, and answers how many were refused or are pending.
///
/// It calls the plan off, and has no tally, once memory is refused before a set is numbered. It ends without a tally, too, where
/// another caller has called the plan off.
pub(crate) fn propose_all<R: Wait>(
    rt: &R,
    cluster: &Cluster,
    called_off: &AtomicBool,
    sets: Vec<MessageSet>,
) -> Option<Tally>
    ensures { IfSome result (λ t. counted t ≤ vec_len sets) }
{
    let mut session = Session::new();
    let mut tally = NONE;
    for set in sets {
        if called_off.load(Ordering::SeqCst) {
            return None;
        }
        let Some(counted) = tally.with(cluster.propose(rt, &mut session, set, TURNS)) else {
            called_off.store(true, Ordering::SeqCst);
            return None;
        };
        tally = counted;
    }
    Some(tally)
}
