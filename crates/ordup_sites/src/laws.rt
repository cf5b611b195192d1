ghost use Rattle.ordup_sites.specs.Sites.{SameRecordsHaveTheSameValues};

// promise: records that are the same have the same values after each update that both have
/// A law: two records that are the same have the same serial result after each number of updates that both have.
pub fn same_records_have_the_same_values()
    ensures { SameRecordsHaveTheSameValues }
{}
