//! A tea service on one cluster: two clerks sell from one stock, and two shops follow. Each clerk and each shop has a thread of its own.
//! A clerk looks at a shop after each sale, and sees its own sales there.
#![tactic(auto)]

use anyhow::{Result, bail};
use ordup_cluster::{Closed, Cluster, OpenGate, Session};
use ordup_limits::Scope;
use ordup_objects::{Change, MessageSet, ObjectId, Op, Refusal, SiteId};
use ordup_primary::Setup;
use std::alloc::Global;
use std::sync::Wait;
use std::thread;
use std::thread::Threads;

/// How many bags of tea there are.
const BAGS: i64 = 1_000;

/// For how many turns a clerk waits until a sale is acknowledged.
const TURNS: u64 = 1_000_000;

/// For how many pauses it waits until a shop has its sale.
const PAUSES: u64 = 1_000_000;

fn main(rt: HostRuntime) -> Result<()> {
    let cluster = open(rt.alloc())?;
    let served = serve(&rt, &cluster);
    close(&rt, cluster)?;
    served
}

/// The stock, and the shops north and south. The south may lag by 20 bags. The north has no limit, so no sale waits for it.
fn open(alloc: Global) -> Result<Cluster, Refusal> {
    let mut setup = Setup::new(alloc);
    declare(&mut setup)?;
    Cluster::new(alloc, setup)
}

fn declare(setup: &mut Setup) -> Result<(), Refusal> {
    let tea = setup.object(b"tea", BAGS)?;
    setup.site(b"north", 1_024)?;
    let south = setup.site(b"south", 1_024)?;
    setup.limit(south, Scope::Object(tea), 20)
}

/// Runs the shops until the clerks are done.
fn serve<R: Threads + Wait + Print + Sync>(rt: &R, cluster: &Cluster) -> Result<()> {
    let (_, looks) = thread::join(
        rt,
        move || follow(rt, cluster),
        move || {
            let looks = sell(rt, cluster);
            cluster.stop();
            looks
        },
    );
    println!(rt; "{looks} looks showed the sales of their clerk")?;
    Ok(())
}

/// The two shops and the keeper, until the cluster is stopped.
fn follow<R: Threads + Wait + Sync>(rt: &R, cluster: &Cluster) {
    thread::join(
        rt,
        move || cluster.keeper(rt),
        move || apply_at_both(rt, cluster),
    );
}

fn apply_at_both<R: Threads + Wait + Sync>(rt: &R, cluster: &Cluster) {
    thread::join(
        rt,
        move || apply_at(rt, cluster, SiteId::new(0)),
        move || apply_at(rt, cluster, SiteId::new(1)),
    );
}

/// A shop applies what its feed brings, until the cluster is stopped and the feed is empty.
fn apply_at<R: Wait>(rt: &R, cluster: &Cluster, shop: SiteId) {
    if shop.index() < cluster.sites() {
        cluster.applier(rt, shop, &OpenGate);
    }
}

/// The two clerks: one sells 3 bags at a time, the other 5.
fn sell<R: Threads + Wait + Sync>(rt: &R, cluster: &Cluster) -> u64 {
    let (first, second) = thread::join(
        rt,
        move || sell_all(rt, cluster, 3),
        move || sell_all(rt, cluster, 5),
    );
    first.saturating_add(second)
}

/// A clerk makes fifty sales of this many bags each, and looks at the north after each. It answers how many looks showed all its sales.
fn sell_all<R: Wait>(rt: &R, cluster: &Cluster, bags: i64) -> u64 {
    let mut session = Session::new();
    let mut left = BAGS;
    let mut looks = 0u64;
    for _ in 0..50 {
        if sell_one(rt, cluster, &mut session, bags).is_ok() {
            left = left.saturating_sub(bags);
        }
        match look(rt, cluster, &mut session, SiteId::new(0)) {
            Ok(value) if value <= left => looks = looks.saturating_add(1),
            _ => {}
        }
    }
    looks
}

/// Sells this many bags, and waits until the sale is acknowledged.
fn sell_one<R: Wait>(
    rt: &R,
    cluster: &Cluster,
    session: &mut Session,
    bags: i64,
) -> Result<(), Refusal> {
    let change = Change {
        object: ObjectId::new(0),
        op: Op::Add(0i64.saturating_sub(bags)),
    };
    let set = MessageSet::single(cluster.objects(), change)?;
    match cluster.propose(rt, session, set, TURNS) {
        Ok(_) => Ok(()),
        // The sale stands in the log, so wait for it: a second proposal would sell twice.
        Err(Refusal::NotYet { number }) => cluster.settle(rt, session, number, TURNS),
        Err(refusal) => Err(refusal),
    }
}

/// How many bags a shop has, once it has applied what the session has seen.
fn look<R: Wait>(
    rt: &R,
    cluster: &Cluster,
    session: &mut Session,
    shop: SiteId,
) -> Result<i64, Refusal> {
    let seen = cluster.read_when_level(rt, session, shop, ObjectId::new(0), PAUSES)?;
    Ok(seen.value)
}

/// Compares each shop with the log.
fn close(rt: &impl Print, cluster: Cluster) -> Result<()> {
    match cluster.close() {
        Ok(closed) => {
            let shown = show(rt, &closed);
            closed.discard();
            shown
        }
        Err(refusal) => bail!("a shop does not agree with the log: {refusal}"),
    }
}

/// Prints how many bags the primary has left.
fn show(rt: &impl Print, closed: &Closed) -> Result<()> {
    let log = closed.primary().log();
    if log.objects() > 0 {
        let left = log.end_value(ObjectId::new(0));
        println!(rt; "{left} bags are left after {} sales", log.len())?;
    }
    Ok(())
}
