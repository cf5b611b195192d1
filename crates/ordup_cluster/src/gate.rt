use ordup_objects::SiteId;
use std::sync::Wait;

/// A gate between an applier and its feed. The applier makes both calls in each of its turns, also where its feed is empty.
pub trait Gate {
    /// The first call of a turn, with the number of the update that the site applies next. The applier holds no lock then.
    fn before_apply<R: Wait>(&self, rt: &R, site: SiteId, number: u64);

    /// The second call of a turn, with the number of the update that the site applies next. The applier holds the lock of the site
    /// then.
    fn at_apply<R: Wait>(&self, rt: &R, site: SiteId, number: u64);
}

/// A gate that holds up nothing.
pub struct OpenGate;

impl Gate for OpenGate {
    fn before_apply<R: Wait>(&self, _rt: &R, _site: SiteId, _number: u64) {}

    fn at_apply<R: Wait>(&self, _rt: &R, _site: SiteId, _number: u64) {}
}
