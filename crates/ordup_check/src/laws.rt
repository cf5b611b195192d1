ghost use Rattle.ordup_check.specs.SeriesLaws.{TextsOfASeriesAreNotMalformed, TextsTellOneSeries, WrittenSeriesAreTold};

// promise: a text tells one series of records, and is then not malformed
/// A law: a text tells no two series of records.
pub fn texts_tell_one_series()
    ensures { TextsTellOneSeries }
{}

// promise: as texts_tell_one_series
/// A law: a text that tells a series of records is malformed after none of them.
pub fn texts_of_a_series_are_not_malformed()
    ensures { TextsOfASeriesAreNotMalformed }
{}

// promise: the texts of records, one behind the other, tell them
/// A law: the texts of records, each as it is written, tell just these records when one stands behind the other.
pub fn written_series_are_told()
    ensures { WrittenSeriesAreTold }
{}
