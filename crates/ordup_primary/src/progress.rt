use crate::reports::Reports;
use ordup_rounds::Window;
use std::alloc::{Allocator, Global};

/// What the primary knows of a site.
#[derive(Drop)]
pub(crate) struct Progress<A: Allocator + Copy = Global> {
    /// How many updates were sent to it.
    pub(crate) sent: u64,
    /// How many of them it last reported as applied.
    pub(crate) reported: u64,
    /// What it had reported at the decision of each place.
    pub(crate) reports: Reports<A>,
    /// The places at which it was forced, in order.
    pub(crate) rounds: Vec<u64, A>,
    /// One window for each of these rounds, from what it had reported at the decision to the place of the round.
    pub(crate) windows: Vec<Window, A>,
}
