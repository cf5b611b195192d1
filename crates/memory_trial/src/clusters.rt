//! The calls of a cluster.
use crate::asking::{Stop, TRIES, ask, print_refused};
use crate::closing::close;
use crate::declarations::{declare_without_lag, declare_without_limits};
use ordup_cluster::{Cluster, OpenGate, Session, SiteQuery};
use ordup_limits::Scope;
use ordup_objects::{MessageSet, ObjectId, Refusal, SiteId};
use ordup_primary::Setup;
use std::alloc::Global;
use std::io;
use std::sync::Wait;

/// Enough that the lists of what was decided grow a second time.
const UPDATES_THAT_WAIT: u64 = 5;

/// Updates of a cluster whose sites never get a limit: each is acknowledged in the hold that numbers it, and copied for each site. A
/// copy that is refused memory is made after the next one is numbered.
pub(crate) fn try_cluster_without_limits<R: Wait + Print>(
    rt: &R,
    alloc: Global,
    sets: &[&MessageSet],
) -> Result<(), Stop> {
    let cluster = open(rt, alloc, Limits::None)?;
    let tried = propose_each(rt, alloc, &cluster, sets);
    let closed = close(rt, cluster);
    tried?;
    closed?;
    Ok(())
}

fn propose_each<R: Wait + Print>(
    rt: &R,
    alloc: Global,
    cluster: &Cluster,
    sets: &[&MessageSet],
) -> Result<(), Stop> {
    for (index, set) in sets.iter().enumerate() {
        acknowledge(rt, alloc, cluster, set, index as u64 + 1)?;
    }
    cluster.stop();
    apply(rt, cluster, 0)?;
    apply(rt, cluster, 1)?;
    Ok(())
}

/// Updates that no site holds up, though a site gets limits while the cluster runs: each is acknowledged in the hold that numbers
/// it.
pub(crate) fn try_cluster_with_new_limits<R: Wait + Print>(
    rt: &R,
    alloc: Global,
    one: &MessageSet,
    two: &MessageSet,
) -> Result<(), Stop> {
    let cluster = open(rt, alloc, Limits::None)?;
    let tried = propose_three(rt, alloc, &cluster, one, two);
    let closed = close(rt, cluster);
    tried?;
    closed?;
    Ok(())
}

fn propose_three<R: Wait + Print>(
    rt: &R,
    alloc: Global,
    cluster: &Cluster,
    one: &MessageSet,
    two: &MessageSet,
) -> Result<(), Stop> {
    begin(rt, cluster)?;
    // The list of its limits grows for the first, and again for the fifth.
    relimit(rt, cluster, &Scope::Object(ObjectId::new(0)))?;
    relimit(rt, cluster, &Scope::Object(ObjectId::new(1)))?;
    relimit(rt, cluster, &Scope::All)?;
    relimit(rt, cluster, &Scope::Count)?;
    acknowledge(rt, alloc, cluster, one, 1)?;
    begin(rt, cluster)?;
    relimit(rt, cluster, &Scope::Count)?;
    acknowledge(rt, alloc, cluster, two, 2)?;
    acknowledge(rt, alloc, cluster, one, 3)?;
    cluster.stop();
    apply(rt, cluster, 0)?;
    apply(rt, cluster, 1)?;
    Ok(())
}

/// Updates of which each waits for the site, whose feed has a capacity of one.
pub(crate) fn try_cluster_that_waits<R: Wait + Print>(
    rt: &R,
    alloc: Global,
    set: &MessageSet,
) -> Result<(), Stop> {
    let cluster = open(rt, alloc, Limits::NoLag)?;
    let tried = propose_and_wait(rt, alloc, &cluster, set);
    let closed = close(rt, cluster);
    tried?;
    closed?;
    Ok(())
}

fn propose_and_wait<R: Wait + Print>(
    rt: &R,
    alloc: Global,
    cluster: &Cluster,
    set: &MessageSet,
) -> Result<(), Stop> {
    for number in 0..UPDATES_THAT_WAIT {
        propose(rt, alloc, cluster, set, number + 1)?;
    }
    cluster.stop();
    for number in 1..UPDATES_THAT_WAIT {
        apply(rt, cluster, 0)?;
        settle(rt, cluster, number + 1)?;
    }
    apply(rt, cluster, 0)?;
    settle(rt, cluster, UPDATES_THAT_WAIT)
}

/// Which limits the sites of a cluster have at first.
#[derive(Clone, Copy)]
enum Limits {
    None,
    NoLag,
}

/// Opens a cluster. Where it is refused, its setup is lost and is declared again.
fn open<R: Print>(rt: &R, alloc: Global, limits: Limits) -> Result<Cluster, Stop> {
    for _ in 0..TRIES {
        let setup = ask(rt, "setup", || declare(alloc, limits))?;
        match Cluster::new(alloc, setup) {
            Ok(cluster) => return opened(rt, cluster),
            Err(refusal) => print_refused(rt, "cluster", refusal)?,
        }
    }
    Err(Stop::NoMemory)
}

fn opened(rt: &impl Print, cluster: Cluster) -> Result<Cluster, Stop> {
    match println!(rt; "cluster ok") {
        Ok(()) => Ok(cluster),
        Err(_) => {
            cluster.discard();
            Err(Stop::Unprinted)
        }
    }
}

fn declare(alloc: Global, limits: Limits) -> Result<Setup, Refusal> {
    match limits {
        Limits::None => declare_without_limits(alloc),
        Limits::NoLag => declare_without_lag(alloc),
    }
}

/// Changes a limit of the first site, to one that no update passes.
fn relimit<R: Wait + Print>(rt: &R, cluster: &Cluster, scope: &Scope) -> Result<(), Stop> {
    for _ in 0..TRIES {
        match cluster.relimit(rt, SiteId::new(0), *scope, 100) {
            Ok(place) => {
                println!(rt; "relimit ok {place}")?;
                return Ok(());
            }
            Err(refusal) => print_refused(rt, "relimit", refusal)?,
        }
    }
    Err(Stop::NoMemory)
}

/// Begins a query at the first site, which reads x there.
fn begin<R: Wait + Print>(rt: &R, cluster: &Cluster) -> Result<(), Stop> {
    for _ in 0..TRIES {
        match cluster.begin(rt, SiteId::new(0), 100) {
            Ok(query) => {
                read(rt, query)?;
                return Ok(());
            }
            Err(refusal) => print_refused(rt, "begin", refusal)?,
        }
    }
    Err(Stop::NoMemory)
}

/// Reads x by a query, which it ends.
fn read<R: Wait + Print>(rt: &R, mut query: SiteQuery<'_>) -> io::Result<()> {
    let read = query.read(rt, ObjectId::new(0));
    let ended = query.end();
    match read {
        Ok(_) => println!(rt;
            "begin ok place {} value {} import {}",
            ended.place, ended.sum, ended.total
        ),
        Err(refusal) => print_refused(rt, "read", refusal),
    }
}

/// Proposes a copy of a set, which becomes the update of this number, and settles it where its proposal says that it waits.
fn acknowledge<R: Wait + Print>(
    rt: &R,
    alloc: Global,
    cluster: &Cluster,
    set: &MessageSet,
    number: u64,
) -> Result<(), Stop> {
    if propose(rt, alloc, cluster, set, number)? {
        return Ok(());
    }
    settle(rt, cluster, number)
}

/// Proposes a copy of a set, which becomes the update of this number, with one turn. It answers whether it is acknowledged.
fn propose<R: Wait + Print>(
    rt: &R,
    alloc: Global,
    cluster: &Cluster,
    set: &MessageSet,
    number: u64,
) -> Result<bool, Stop> {
    for _ in 0..TRIES {
        let copy = ask(rt, "copy", || set.copy(alloc))?;
        match cluster.propose(rt, &mut Session::new(), copy, 1) {
            Ok(number) => {
                println!(rt; "propose ok {number}")?;
                return Ok(true);
            }
            Err(Refusal::NotYet { number }) => {
                print_refused(rt, "propose", Refusal::NotYet { number })?;
                return Ok(false);
            }
            Err(refusal) => {
                print_refused(rt, "propose", refusal)?;
                // The log has no update of this number.
                settle(rt, cluster, number)?;
            }
        }
    }
    Err(Stop::NoMemory)
}

/// Settles the update of this number, with one turn.
fn settle<R: Wait + Print>(rt: &R, cluster: &Cluster, number: u64) -> Result<(), Stop> {
    for _ in 0..TRIES {
        match cluster.settle(rt, &mut Session::new(), number, 1) {
            Ok(()) => {
                println!(rt; "settle ok {number}")?;
                return Ok(());
            }
            Err(refusal) => {
                print_refused(rt, "settle", refusal)?;
                if refusal != Refusal::NoMemory {
                    return Ok(());
                }
            }
        }
    }
    Err(Stop::NoMemory)
}

/// A site applies all that it was sent. The cluster is stopped.
fn apply<R: Wait + Print>(rt: &R, cluster: &Cluster, index: u8) -> io::Result<()> {
    let site = SiteId::new(index);
    if site.index() >= cluster.sites() {
        return print_refused(rt, "apply", Refusal::UnknownSite);
    }
    let applied = cluster.applier(rt, site, &OpenGate);
    println!(rt; "apply ok {applied}")
}
