//! What is declared, and the message sets that are proposed.
use ordup_limits::Scope;
use ordup_objects::{Change, MessageSet, ObjectId, ObjectTable, Op, Refusal};
use ordup_primary::Setup;
use std::alloc::Global;

/// x at 0 and y at 10.
pub(crate) fn declare_objects(alloc: Global) -> Result<ObjectTable, Refusal> {
    let mut objects = ObjectTable::new(alloc);
    declare_x_and_y(&mut objects)?;
    Ok(objects)
}

fn declare_x_and_y(objects: &mut ObjectTable) -> Result<(), Refusal> {
    objects.declare(b"x", 0)?;
    objects.declare(b"y", 10)?;
    Ok(())
}

/// The set `add:x:3`.
pub(crate) fn one_change(objects: &ObjectTable) -> Result<MessageSet, Refusal> {
    MessageSet::single(objects, add(0, 3))
}

/// The set `add:x:4 add:y:5`.
pub(crate) fn two_changes(objects: &ObjectTable) -> Result<MessageSet, Refusal> {
    let mut set = MessageSet::single(objects, add(0, 4))?;
    set.add(objects, add(1, 5))?;
    Ok(set)
}

fn add(object: u16, amount: i64) -> Change {
    Change {
        object: ObjectId::new(object),
        op: Op::Add(amount),
    }
}

/// Two sites without limits, whose feeds have a capacity of four updates.
pub(crate) fn declare_without_limits(alloc: Global) -> Result<Setup, Refusal> {
    let mut setup = Setup::new(alloc);
    match add_two_sites(&mut setup) {
        Ok(()) => Ok(setup),
        Err(refusal) => {
            setup.discard();
            Err(refusal)
        }
    }
}

fn add_two_sites(setup: &mut Setup) -> Result<(), Refusal> {
    setup.object(b"x", 0)?;
    setup.object(b"y", 10)?;
    setup.site(b"a", 4)?;
    setup.site(b"b", 4)?;
    Ok(())
}

/// A site that may not lag, whose feed has a capacity of one update.
pub(crate) fn declare_without_lag(alloc: Global) -> Result<Setup, Refusal> {
    let mut setup = Setup::new(alloc);
    match add_site_without_lag(&mut setup) {
        Ok(()) => Ok(setup),
        Err(refusal) => {
            setup.discard();
            Err(refusal)
        }
    }
}

fn add_site_without_lag(setup: &mut Setup) -> Result<(), Refusal> {
    setup.object(b"x", 0)?;
    setup.object(b"y", 10)?;
    let site = setup.site(b"a", 1)?;
    setup.limit(site, Scope::All, 0)
}

/// A site that may not lag on y.
pub(crate) fn declare_without_lag_on_y(alloc: Global) -> Result<Setup, Refusal> {
    let mut setup = Setup::new(alloc);
    match add_site_without_lag_on_y(&mut setup) {
        Ok(()) => Ok(setup),
        Err(refusal) => {
            setup.discard();
            Err(refusal)
        }
    }
}

fn add_site_without_lag_on_y(setup: &mut Setup) -> Result<(), Refusal> {
    setup.object(b"x", 0)?;
    setup.object(b"y", 10)?;
    let site = setup.site(b"a", 4)?;
    setup.limit(site, Scope::Object(ObjectId::new(1)), 0)
}
