ghost use Rattle.ordup_primary.specs.Parcels.{NextUpdatesMayFollow};

// promise: the next update for a site may follow those sent to it
/// A law: what `Primary::next_for` gives for a site may follow the updates that were sent to the site.
///
/// So it may go into a feed in which those went before it.
pub fn next_updates_may_follow()
    ensures { NextUpdatesMayFollow }
{}
