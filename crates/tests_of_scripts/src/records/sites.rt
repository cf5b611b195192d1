//! Sites that have no record, since they are not there.
use ordup_check::record_of;
use ordup_objects::{Refusal, SiteId};
use ordup_primary::{Primary, Setup};
use std::alloc::Global;
use std::process::Abort;
use test_fixtures::{expect, expect_eq};

/// A store that is started, with the object x and the site a.
// The test drops it by a call, which is proved once for all tests: docs/DECISIONS.md, Tests.
fn started(rt: &impl Abort, alloc: Global) -> Primary {
    let mut setup = Setup::new(alloc);
    expect!(rt; setup.object(b"x", 0).is_ok());
    expect!(rt; setup.site(b"a", 4).is_ok());
    expect!(rt; setup.is_ready());
    let Ok(primary) = Primary::new(alloc, setup) else {
        panic!(rt; "there is no memory for a store")
    };
    primary
}

/// Why there is no record of the site at this index, if there is none.
fn refusal_of(alloc: Global, primary: &Primary, index: u8) -> Option<Refusal> {
    record_of(alloc, primary, SiteId::new(index)).err()
}

/// Asks for records of unknown sites.
// shows: record_of refused
#[test]
fn a_site_that_is_not_there_has_no_record(rt: HostRuntime) {
    let primary = started(&rt, rt.alloc());
    expect_eq!(&rt; refusal_of(rt.alloc(), &primary, 0), None);
    for index in [1, 15, 16, 255] {
        let refusal = refusal_of(rt.alloc(), &primary, index);
        expect_eq!(&rt; refusal, Some(Refusal::UnknownSite), index);
    }
    primary.discard();
}
