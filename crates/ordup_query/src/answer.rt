/// The answer to an accepted read.
#[derive(Clone, Copy, Debug, PartialEq, Eq)]
pub struct ReadAnswer {
    /// The value of the object at the site.
    pub value: i64,
    /// What the read imports, in the unit of the values: the value at the reference is no further away.
    pub import: u64,
    /// What the query imported by its accepted reads, this one among them.
    pub total: u64,
}

/// The answer to the end of a query.
#[derive(Clone, Copy, Debug, PartialEq, Eq)]
pub struct QueryAnswer {
    /// The reference: the place of the log that the query's imports are measured against.
    pub place: u64,
    /// The values of the accepted reads, added up.
    pub sum: i64,
    /// Their imports, added up: at most the limit.
    pub total: u64,
    /// How many reads were accepted, at most 256.
    pub reads: u64,
}
