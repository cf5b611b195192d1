use ordup_limits::Scope;
use ordup_objects::{MessageSet, Name, ObjectId, Refusal, SiteId, Values};
use ordup_primary::Settled;
use ordup_query::{QueryAnswer, ReadAnswer};
use std::alloc::{Allocator, Global};

/// What may happen to a store.
#[derive(Drop)]
pub enum Event<A: Allocator + Copy = Global> {
    /// The primary numbers a message set as the next update.
    Propose(MessageSet<A>),
    /// The first update that was not sent to the site goes into its feed.
    Send(SiteId),
    /// The site applies the next update of its feed.
    Apply(SiteId),
    /// The site reports to the primary how many updates it applied.
    Report(SiteId),
    /// The primary settles the head, the update after the last acknowledged one.
    Settle,
    /// The limit of the site on the scope is changed from the head on, or begins there. The amount lies from 0 to 10^18.
    Relimit {
        site: SiteId,
        scope: Scope,
        amount: u64,
    },
    /// A query begins at the site, with a limit on what its reads may import, 0 to 10^18.
    Begin {
        query: Name,
        site: SiteId,
        limit: u64,
    },
    /// The query reads an object at its site.
    Read {
        query: Name,
        object: ObjectId,
    },
    /// The query ends. Its answer is what its reads added up to.
    End(Name),
    /// The query ends without an answer.
    Abandon(Name),
    /// The site is shown.
    Show(SiteId),
}

/// The answer to an event. Places count from 1, sites from 0.
#[derive(Drop)]
pub enum Answer<A: Allocator + Copy = Global> {
    /// The update has this number.
    Proposed(u64),
    /// The update with this number went into the feed of the site.
    Sent {
        site: SiteId,
        number: u64,
    },
    /// The site applied the update with this number.
    Applied {
        site: SiteId,
        number: u64,
    },
    /// The site reported the updates up to this place as applied.
    Reported {
        site: SiteId,
        place: u64,
    },
    /// What came of the settlement.
    Settlement(Settled),
    /// The limit of the site holds from this place on, that of the head.
    Relimited {
        site: SiteId,
        place: u64,
    },
    /// The query began: its reference is the last update that was acknowledged then, or 0.
    Begun {
        query: Name,
        place: u64,
    },
    /// What the read gave.
    ReadOut(ReadAnswer),
    /// What the reads of the query added up to.
    Ended(QueryAnswer),
    /// The query with this name is given up.
    Abandoned(Name),
    /// How many updates were sent to the site, how many it applied and how many it reported, how many rounds it has, and its
    /// values.
    Shown {
        sent: u64,
        applied: u64,
        reported: u64,
        rounds: u64,
        values: Values<A>,
    },
    /// The event was refused. Everything is as it was before.
    Refused(Refusal),
}
