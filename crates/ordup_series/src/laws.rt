ghost use Rattle.ordup_series.specs.Series.{CertifiedSeriesAreValid, CertifiedSeriesHaveTheFewestRounds, SeriesHaveTheRoundsOfTheirRecords, ValidSeriesAreCertified};

// promise: the whole of a series of valid records (`series_of`) is certified
/// A law: the rounds and windows of a series of valid records, each where the whole has it, are a certificate of the whole.
pub fn valid_series_are_certified()
    ensures { ValidSeriesAreCertified }
{}

// promise: each record is valid if the whole is certified
/// A law: where the whole of a series is certified, each of its records is valid.
pub fn certified_series_are_valid()
    ensures { CertifiedSeriesAreValid }
{}

// promise: the whole has as many rounds as the records together
/// A law: the whole of a series has as many rounds as its records have together.
pub fn series_have_the_rounds_of_their_records()
    ensures { SeriesHaveTheRoundsOfTheirRecords }
{}

// promise: a certified whole has the fewest rounds
/// A law: where the whole is certified, no schedule of it that keeps the limits has fewer rounds.
pub fn certified_series_have_the_fewest_rounds()
    ensures { CertifiedSeriesHaveTheFewestRounds }
{}
