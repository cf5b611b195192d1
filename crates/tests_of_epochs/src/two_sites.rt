//! Two sites and two objects on one thread: each call is about the site, the object and the scope that it names. A site applies what
//! came to it once the service is stopped.
use super::fixtures::{apply_at, close, enter, opened, propose, start_successor};
use super::promises::applier;
use ordup_cluster::{Gate, OpenGate, Session};
use ordup_epochs::Epochs;
use ordup_limits::Scope;
use ordup_objects::{Refusal, SiteId};
use ordup_query::ReadAnswer;
use std::process::Abort;
use std::sync::Wait;
use std::sync::atomic::{AtomicU64, Ordering};
use std::test::Fail;
use test_cluster_fixtures::promises::{begin, read_at, relimit};
use test_cluster_fixtures::seen;
use test_fixtures::{Site, a, b, expect_eq, x, y};

/// Neither site waits for anybody.
const FREE: [Site; 2] = [("a", 4, None), ("b", 4, None)];

/// What the first calls of a gate were told: 1,000 for the site b, and the number.
#[derive(Drop)]
struct Told {
    before: AtomicU64,
    at: AtomicU64,
}

impl Gate for Told {
    fn before_apply<R: Wait>(&self, _rt: &R, site: SiteId, number: u64) {
        if self.before.load(Ordering::SeqCst) == 0 {
            self.before.store(
                (site.index() as u64 * 1_000).saturating_add(number),
                Ordering::SeqCst,
            );
        }
    }

    fn at_apply<R: Wait>(&self, _rt: &R, site: SiteId, number: u64) {
        if self.at.load(Ordering::SeqCst) == 0 {
            self.at.store(
                (site.index() as u64 * 1_000).saturating_add(number),
                Ordering::SeqCst,
            );
        }
    }
}

/// Adds 1 to x in a visit: the update has this number.
fn propose_one<R: Wait + Abort>(rt: &R, epochs: &Epochs, number: u64) {
    let epoch = enter(rt, epochs);
    expect_eq!(rt; propose(rt, &epoch, &mut Session::new(), 1), Ok(number));
    drop(epoch);
}

/// The site a has applied nothing of the second epoch, and b the update 2: a read and a query are of the site that they name.
fn look<R: Wait + Abort>(rt: &R, epochs: &Epochs) {
    let epoch = enter(rt, epochs);
    expect_eq!(rt; read_at(rt, &epoch, &mut Session::new(), a(), x()), Ok(seen(1, 1)));
    expect_eq!(rt; read_at(rt, &epoch, &mut Session::new(), b(), x()), Ok(seen(2, 2)));
    expect_eq!(rt; read_at(rt, &epoch, &mut Session::new(), b(), y()), Ok(seen(10, 2)));
    let Ok(mut query) = begin(rt, &epoch, b(), 0) else {
        panic!(rt; "a query is refused")
    };
    expect_eq!(rt; query.read(rt, x()), Ok(ReadAnswer { value: 2, import: 0, total: 0 }));
    drop(query);
    drop(epoch);
}

/// The gate of b is told of b, by numbers of all epochs, and its applier counts what it applied.
// shows: the calls of an epoch; visits
#[test]
fn each_call_is_of_its_site(rt: HostRuntime) -> Result<(), Fail> {
    let epochs = opened(rt.alloc(), &FREE, 8)?;
    propose_one(&rt, &epochs, 1);
    expect_eq!(&rt; start_successor(&rt, rt.alloc(), &epochs, 1), Ok((0, 1)));
    propose_one(&rt, &epochs, 2);
    epochs.stop(&rt);
    let told = Told {
        before: AtomicU64::new(0),
        at: AtomicU64::new(0),
    };
    expect_eq!(&rt; applier(&rt, &epochs, b(), &told), Ok(1));
    expect_eq!(&rt; told.before.load(Ordering::SeqCst), 1_002);
    expect_eq!(&rt; told.at.load(Ordering::SeqCst), 1_002);
    look(&rt, &epochs);
    expect_eq!(&rt; close(&rt, epochs), Ok((1, 1)));
    Ok(())
}

/// The limit of b is raised, and that of a is not: the second update waits for a.
fn raise_the_other<R: Wait + Abort>(rt: &R, epochs: &Epochs) {
    let epoch = enter(rt, epochs);
    let session = &mut Session::new();
    expect_eq!(rt; relimit(rt, &epoch, a(), Scope::Object(y()), 0), Ok(1));
    expect_eq!(rt; relimit(rt, &epoch, b(), Scope::Count, 5), Ok(1));
    expect_eq!(rt; propose(rt, &epoch, session, 1), Ok(1));
    expect_eq!(rt; propose(rt, &epoch, session, 1), Err(Refusal::NotYet { number: 2 }));
    drop(epoch);
}

/// A change of a limit is of the site and the scope that it names.
// shows: the calls of an epoch
#[test]
fn a_changed_limit_is_of_its_site_and_scope(rt: HostRuntime) -> Result<(), Fail> {
    let sites = [("a", 4, Some((Scope::Count, 1))), ("b", 4, None)];
    let epochs = opened(rt.alloc(), &sites, 8)?;
    raise_the_other(&rt, &epochs);
    expect_eq!(&rt; close(&rt, epochs), Ok((0, 2)));
    Ok(())
}

/// After `stop` a visit to an epoch that is full does not wait, and no successor starts.
// shows: stops of epochs
#[test]
fn nothing_waits_for_a_successor_after_the_stop(rt: HostRuntime) -> Result<(), Fail> {
    let epochs = opened(rt.alloc(), &FREE, 1)?;
    propose_one(&rt, &epochs, 1);
    epochs.stop(&rt);
    expect_eq!(&rt; start_successor(&rt, rt.alloc(), &epochs, 1), Err(Refusal::Stopped));
    apply_at(&rt, &epochs, 1, &OpenGate);
    let epoch = enter(&rt, &epochs);
    expect_eq!(&rt; read_at(&rt, &epoch, &mut Session::new(), b(), x()), Ok(seen(1, 1)));
    drop(epoch);
    expect_eq!(&rt; close(&rt, epochs), Ok((0, 1)));
    Ok(())
}
