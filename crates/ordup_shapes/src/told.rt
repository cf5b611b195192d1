//! What calls tell.

/// What a hold of the book leaves.
#[repr(C)]
#[derive(Clone, Copy)]
pub struct Told {
    /// The number of the update that was numbered, or 0.
    pub number: u64,
    /// How many updates are acknowledged.
    pub acked: u64,
    /// How many updates the log has.
    pub logged: u64,
    /// How many updates were sent, over all sites.
    pub sent: u64,
    /// The index of the first condition that was not met, where one was not.
    pub unmet: u64,
    /// 1 where a growth was refused in the turn, else 0.
    pub is_starved: u32,
    /// 1 where an update is not acknowledged, or not sent to each site, else 0.
    pub has_work: u32,
}

/// What a read tells.
#[repr(C)]
#[derive(Clone, Copy)]
pub struct Seen {
    pub value: i64,
    /// How many updates the site had applied.
    pub applied: u64,
}

/// What a read of a query tells.
#[repr(C)]
#[derive(Clone, Copy)]
pub struct Charged {
    pub value: i64,
    /// What the read imports, in the unit of the values.
    pub import: u64,
    /// What the query imported, this read included.
    pub total: u64,
    /// The query's reference.
    pub place: u64,
    /// How many reads the query made, this one included.
    pub reads: u64,
}

/// What a query that ended tells.
#[repr(C)]
#[derive(Clone, Copy)]
pub struct Ended {
    /// Its reference.
    pub place: u64,
    /// The sum of its values.
    pub sum: i64,
    /// The sum of its imports.
    pub total: u64,
    /// How many reads it made.
    pub reads: u64,
}

/// What the primary knows of a site.
#[repr(C)]
#[derive(Clone, Copy)]
pub struct Progress {
    /// How many updates were sent to it.
    pub sent: u64,
    /// How many it reported.
    pub reported: u64,
    /// How many rounds it was forced into.
    pub rounds: u64,
}

/// A limit of a site as it is now, and its lag on the limit's scope.
#[repr(C)]
#[derive(Clone, Copy)]
pub struct Lag {
    /// The kind of the limit's scope.
    pub kind: u32,
    /// The number of the scope's object or group, or 0.
    pub id: u32,
    pub amount: u64,
    /// What the acknowledged updates weigh that the site has not reported.
    pub weight: u64,
}
