//! A tea service that never stops: two clerks sell from one stock, and two shops follow. Each clerk and each shop has a thread of
//! its own, and one more thread starts a successor whenever a store has 30 sales.
#![tactic(auto)]

use anyhow::{Result, bail};
use ordup_cluster::{Closed, OpenGate, Session};
use ordup_epochs::{Epochs, NoArchive};
use ordup_limits::Scope;
use ordup_objects::{Change, MessageSet, ObjectId, ObjectTable, Op, Refusal, SiteId};
use ordup_primary::Setup;
use std::alloc::Global;
use std::sync::Wait;
use std::thread;
use std::thread::Threads;
use std::time::{Clock, Duration};

/// After how many sales a store has a successor.
const SALES: u64 = 30;

/// For how many turns a clerk waits until a sale is acknowledged.
const TURNS: u64 = 1_000_000;

fn main(rt: HostRuntime) -> Result<()> {
    let epochs = open(rt.alloc())?;
    let served = serve(&rt, rt.alloc(), &epochs);
    close(&rt, epochs)?;
    served
}

/// 1,000 bags of tea, and the shops north and south. The south may lag by 20 bags. The north has no limit, so no sale waits for it.
fn declare(setup: &mut Setup) -> Result<(), Refusal> {
    let tea = setup.object(b"tea", 1_000)?;
    setup.site(b"north", 1_024)?;
    let south = setup.site(b"south", 1_024)?;
    setup.limit(south, Scope::Object(tea), 20)
}

fn open(alloc: Global) -> Result<Epochs, Refusal> {
    let mut setup = Setup::new(alloc);
    declare(&mut setup)?;
    Epochs::new(alloc, setup, SALES)
}

/// Runs the shops and the stores until the clerks are done. Then a customer looks at each shop.
fn serve<R: Threads + Wait + Clock + Print + Sync>(
    rt: &R,
    alloc: Global,
    epochs: &Epochs,
) -> Result<()> {
    let (started, sold) = thread::join(
        rt,
        move || follow(rt, alloc, epochs),
        move || {
            let sold = sell(rt, epochs);
            // A quiet second: nothing is sold, and all other threads sleep.
            thread::sleep(rt, Duration::from_secs(1));
            epochs.stop(rt);
            sold
        },
    );
    println!(rt; "{sold} bags were sold")?;
    println!(rt; "{} successors were started", started?)?;
    look(rt, epochs, "north", 0)?;
    look(rt, epochs, "south", 1)
}

/// Starts a successor whenever a store has its sales, while the shops follow, until the service is stopped.
fn follow<R: Threads + Wait + Clock + Sync>(
    rt: &R,
    alloc: Global,
    epochs: &Epochs,
) -> Result<u64, Refusal> {
    let (started, _) = thread::join(
        rt,
        move || epochs.keep(rt, alloc, TURNS, &mut NoArchive),
        move || apply(rt, epochs),
    );
    started
}

/// The two shops, until the service is stopped.
fn apply<R: Threads + Wait + Sync>(rt: &R, epochs: &Epochs) {
    let _ = thread::join(
        rt,
        move || epochs.applier(rt, SiteId::new(0), &OpenGate),
        move || epochs.applier(rt, SiteId::new(1), &OpenGate),
    );
}

/// The two clerks: one sells 3 bags at a time, the other 5.
fn sell<R: Threads + Wait + Sync>(rt: &R, epochs: &Epochs) -> u64 {
    let (first, second) = thread::join(
        rt,
        move || sell_all(rt, epochs, 3),
        move || sell_all(rt, epochs, 5),
    );
    first.saturating_add(second)
}

/// A clerk makes fifty sales of this many bags each, and answers how many bags were sold.
fn sell_all<R: Wait>(rt: &R, epochs: &Epochs, bags: u64) -> u64 {
    let mut session = Session::new();
    let mut sold = 0u64;
    for _ in 0..50 {
        if sell_one(rt, epochs, &mut session, bags).is_ok() {
            sold = sold.saturating_add(bags);
        }
    }
    sold
}

/// Sells this many bags, and waits until the sale is acknowledged.
fn sell_one<R: Wait>(
    rt: &R,
    epochs: &Epochs,
    session: &mut Session,
    bags: u64,
) -> Result<(), Refusal> {
    let epoch = epochs.enter(rt)?;
    let set = sale(epoch.objects(), bags)?;
    match epoch.propose(rt, session, set, TURNS) {
        Ok(_) => Ok(()),
        // The sale stands in the log, so wait for it: a second proposal would sell twice.
        Err(Refusal::NotYet { number }) => epoch.settle(rt, session, number, TURNS),
        Err(refusal) => Err(refusal),
    }
}

/// The message set of a sale: it takes this many bags off.
fn sale(objects: &ObjectTable, bags: u64) -> Result<MessageSet, Refusal> {
    let change = Change {
        object: ObjectId::new(0),
        op: Op::Add(-(bags.min(1_000) as i64)),
    };
    MessageSet::single(objects, change)
}

/// A customer who has seen nothing before asks how many bags a shop has.
fn look<R: Wait + Print>(rt: &R, epochs: &Epochs, name: &str, shop: u8) -> Result<()> {
    let tea = ObjectId::new(0);
    let epoch = epochs.enter(rt)?;
    match epoch.read(rt, &mut Session::new(), SiteId::new(shop), tea) {
        Ok(seen) => println!(rt; "the {name} sees {} bags", seen.value)?,
        Err(refusal) => bail!("the {name} sees nothing: {refusal}"),
    }
    Ok(())
}

/// Compares each shop with the log of the last store.
fn close(rt: &impl Print, epochs: Epochs) -> Result<()> {
    match epochs.close() {
        Ok(ended) => {
            let shown = show(rt, &ended);
            ended.discard();
            shown
        }
        Err(refusal) => bail!("a shop does not agree with the log: {refusal}"),
    }
}

/// Prints how many bags the primary has left, and after how many sales in all stores.
fn show(rt: &impl Print, ended: &Closed) -> Result<()> {
    let log = ended.primary().log();
    if log.objects() > 0 {
        let left = log.end_value(ObjectId::new(0));
        let sales = ended.before() + log.len();
        println!(rt; "{left} bags are left after {sales} sales")?;
    }
    Ok(())
}
