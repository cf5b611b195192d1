//! The successors that a service starts, one after another.
use crate::asking::{Stop, TRIES, ask, print_refused};
use crate::declarations::{declare_without_lag_on_y, declare_without_limits};
use ordup_cluster::{Closed, Session};
use ordup_epochs::Epochs;
use ordup_objects::{MessageSet, ObjectId, Refusal};
use ordup_primary::Setup;
use std::alloc::Global;
use std::io;
use std::sync::Wait;

/// After how many updates an epoch would end by itself.
const UPDATES: u64 = 10;

/// How many services wait at their last successor: before it the first has started none, and the second one.
const SERVICES_THAT_WAIT: u64 = 2;

/// Two updates, and a successor after each. An update is acknowledged in the hold that numbers it, and copied for each site.
pub(crate) fn try_successors<R: Wait + Print>(
    rt: &R,
    alloc: Global,
    set: &MessageSet,
) -> Result<(), Stop> {
    let epochs = open(rt, alloc, Limits::None)?;
    let tried = offer_and_start(rt, alloc, &epochs, set, 2);
    let closed = close(rt, epochs);
    tried?;
    closed?;
    Ok(())
}

/// Services in which the last update waits for a site that applies nothing, so that the last successor is refused, and the epoch
/// goes on.
pub(crate) fn try_successors_that_wait<R: Wait + Print>(
    rt: &R,
    alloc: Global,
    free: &MessageSet,
    held: &MessageSet,
) -> Result<(), Stop> {
    for successors in 0..SERVICES_THAT_WAIT {
        let epochs = open(rt, alloc, Limits::NoLagOnY)?;
        let tried = start_and_wait(rt, alloc, &epochs, free, held, successors);
        let closed = close(rt, epochs);
        tried?;
        closed?;
    }
    Ok(())
}

fn start_and_wait<R: Wait + Print>(
    rt: &R,
    alloc: Global,
    epochs: &Epochs,
    free: &MessageSet,
    held: &MessageSet,
    successors: u64,
) -> Result<(), Stop> {
    offer_and_start(rt, alloc, epochs, free, successors)?;
    offer(rt, alloc, epochs, held)?;
    start(rt, alloc, epochs)
}

/// Offers a set this many times, and starts a successor after each.
fn offer_and_start<R: Wait + Print>(
    rt: &R,
    alloc: Global,
    epochs: &Epochs,
    set: &MessageSet,
    successors: u64,
) -> Result<(), Stop> {
    for _ in 0..successors {
        offer(rt, alloc, epochs, set)?;
        start(rt, alloc, epochs)?;
    }
    Ok(())
}

/// Which limits the sites of a service have.
#[derive(Clone, Copy)]
enum Limits {
    None,
    NoLagOnY,
}

/// Opens the first epoch. Where it is refused, its setup is lost and is declared again.
fn open<R: Print>(rt: &R, alloc: Global, limits: Limits) -> Result<Epochs, Stop> {
    for _ in 0..TRIES {
        let setup = ask(rt, "setup", || declare(alloc, limits))?;
        match Epochs::new(alloc, setup, UPDATES) {
            Ok(epochs) => return opened(rt, epochs),
            Err(refusal) => print_refused(rt, "epochs", refusal)?,
        }
    }
    Err(Stop::NoMemory)
}

fn declare(alloc: Global, limits: Limits) -> Result<Setup, Refusal> {
    match limits {
        Limits::None => declare_without_limits(alloc),
        Limits::NoLagOnY => declare_without_lag_on_y(alloc),
    }
}

fn opened(rt: &impl Print, epochs: Epochs) -> Result<Epochs, Stop> {
    match println!(rt; "epochs ok") {
        Ok(()) => Ok(epochs),
        Err(_) => {
            drop(epochs);
            Err(Stop::Unprinted)
        }
    }
}

/// Proposes a copy of a set with one turn, until it is numbered. Where that turn is refused, the start of the successor settles
/// what is not yet acknowledged.
fn offer<R: Wait + Print>(
    rt: &R,
    alloc: Global,
    epochs: &Epochs,
    set: &MessageSet,
) -> Result<(), Stop> {
    for _ in 0..TRIES {
        let copy = ask(rt, "copy", || set.copy(alloc))?;
        match propose(rt, epochs, copy) {
            Ok(number) => {
                println!(rt; "offer ok {number}")?;
                return Ok(());
            }
            Err(refusal) => {
                print_refused(rt, "offer", refusal)?;
                if refusal != Refusal::NoMemory {
                    return Ok(());
                }
            }
        }
    }
    Err(Stop::NoMemory)
}

fn propose<R: Wait>(rt: &R, epochs: &Epochs, set: MessageSet) -> Result<u64, Refusal> {
    match epochs.enter(rt) {
        Ok(epoch) => epoch.propose(rt, &mut Session::new(), set, 1),
        Err(refusal) => {
            drop(set);
            Err(refusal)
        }
    }
}

/// Starts the successor. Where that is refused, a visit tells whether the epoch goes on.
fn start<R: Wait + Print>(rt: &R, alloc: Global, epochs: &Epochs) -> Result<(), Stop> {
    for _ in 0..TRIES {
        match epochs.start_successor(rt, alloc, 1) {
            Ok(ended) => {
                print_ended(rt, "successor ok", ended)?;
                return Ok(());
            }
            Err(refusal) => {
                print_refused(rt, "successor", refusal)?;
                visit(rt, epochs)?;
                if refusal != Refusal::NoMemory {
                    return Ok(());
                }
            }
        }
    }
    Err(Stop::NoMemory)
}

/// Prints how many updates came before the epoch that is open, or why none is.
fn visit<R: Wait + Print>(rt: &R, epochs: &Epochs) -> io::Result<()> {
    match epochs.enter(rt) {
        Ok(epoch) => println!(rt; "visit ok {}", epoch.before()),
        Err(refusal) => print_refused(rt, "visit", refusal),
    }
}

/// Closes the last epoch, and prints what it had. It takes no memory.
fn close(rt: &impl Print, epochs: Epochs) -> io::Result<()> {
    match epochs.close() {
        Ok(ended) => print_ended(rt, "ended", ended),
        Err(refusal) => print_refused(rt, "close", refusal),
    }
}

/// Prints how many updates came before an epoch, how many it had, and x after them.
fn print_ended(rt: &impl Print, what: &str, ended: Closed) -> io::Result<()> {
    let log = ended.primary().log();
    let x = if log.objects() > 0 {
        log.end_value(ObjectId::new(0))
    } else {
        0
    };
    let printed = println!(rt; "{what} {} {} value {x}", ended.before(), log.len());
    ended.discard();
    printed
}
