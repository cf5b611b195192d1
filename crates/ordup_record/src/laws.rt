ghost use Rattle.ordup_record.specs.Successive.{SuccessiveRecordsAreAValidSeries, SuccessiveRecordsAreNext};

// promise: the records of a site of successive stores are a valid series
/// A law: the record of a site and that of the same site in a store that goes on from this one, all of which is acknowledged, are next
/// to one another.
pub fn successive_records_are_next()
    ensures { SuccessiveRecordsAreNext }
{}

// promise: as successive_records_are_next
/// A law: the records of a site of stores each of which goes on from the one before are a valid series. So an auditor who reads them
/// answers the number of their rounds.
pub fn successive_records_are_a_valid_series()
    ensures { SuccessiveRecordsAreAValidSeries }
{}
