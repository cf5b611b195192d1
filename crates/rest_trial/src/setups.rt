//! What is declared.
use ordup_limits::Scope;
use ordup_objects::{ObjectId, Refusal, SiteId};
use ordup_primary::Setup;
use std::alloc::Global;

/// The object of all clusters.
pub(crate) fn x() -> ObjectId {
    ObjectId::new(0)
}

/// The site of `declare_three` that no update waits for.
pub(crate) fn free() -> SiteId {
    SiteId::new(2)
}

/// Two sites that may not lag, and one without limits, whose feed is full after two updates.
pub(crate) fn declare_three(alloc: Global) -> Result<Setup, Refusal> {
    let mut setup = Setup::new(alloc);
    match add_three(&mut setup) {
        Ok(()) => Ok(setup),
        Err(refusal) => {
            setup.discard();
            Err(refusal)
        }
    }
}

fn add_three(setup: &mut Setup) -> Result<(), Refusal> {
    setup.object(b"x", 0)?;
    add_site_without_lag(setup, b"a")?;
    add_site_without_lag(setup, b"b")?;
    setup.site(b"c", 2)?;
    Ok(())
}

/// Sixteen sites that may not lag.
pub(crate) fn declare_sixteen(alloc: Global) -> Result<Setup, Refusal> {
    let mut setup = Setup::new(alloc);
    match add_sixteen(&mut setup) {
        Ok(()) => Ok(setup),
        Err(refusal) => {
            setup.discard();
            Err(refusal)
        }
    }
}

fn add_sixteen(setup: &mut Setup) -> Result<(), Refusal> {
    setup.object(b"x", 0)?;
    for letter in b"abcdefghijklmnop" {
        add_site_without_lag(setup, &[*letter])?;
    }
    Ok(())
}

fn add_site_without_lag(setup: &mut Setup, name: &[u8]) -> Result<(), Refusal> {
    let site = setup.site(name, 4)?;
    setup.limit(site, Scope::All, 0)
}
