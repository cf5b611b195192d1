ghost use Rattle.ordup_rows.specs.Laws.{
  RowsHaveOneFirstBadRow,
  RowsOfEachVersionAreRead,
  RowsTellOneRecord,
  RowsTellARecordOrHaveABadRow,
  RowsOfARecordHaveNoBadRow,
  IncompleteRecordsMissARow,
  FirstRowNotTakenIsBad,
  ReadingIsSound,
  TakenRowsBeginARecord,
  ReadingIsComplete,
};
ghost use Rattle.ordup_rows.specs.TextLaws.{
  TextsAreMalformedAtOneRow,
  TextsHaveOneListOfRows,
  TextsTellOneRecord,
  TextsOfARecordAreNotMalformed,
  WrittenTextsAreWithinTheLimit,
  WrittenTextsTellTheirRecord,
  WrittenTextsHaveTheirRows,
};

// promise: reading rows ends with the record that they tell, or at their first bad row; each version is read back
/// A law: reading is sound. Rows that are read to the end tell the record that was read.
pub fn reading_is_sound()
    ensures { ReadingIsSound }
{}

// promise: as reading_is_sound
/// A law: reading is complete. Rows that tell a record are read to the end as that record. So the rows of a record are read back as
/// it.
pub fn reading_is_complete()
    ensures { ReadingIsComplete }
{}

// promise: as reading_is_sound
/// A law: the rows of a record, in each version that can tell its limits, are read as that record.
pub fn rows_of_each_version_are_read()
    ensures { RowsOfEachVersionAreRead }
{}

// promise: rows tell one record, or have one first bad or missing row
/// A law: rows tell no two records.
pub fn rows_tell_one_record()
    ensures { RowsTellOneRecord }
{}

// promise: as reading_is_sound
/// A law: rows that were taken begin a record: with some more rows they tell one.
pub fn taken_rows_begin_a_record()
    ensures { TakenRowsBeginARecord }
{}

// promise: as reading_is_sound
/// A law: a row that is not taken is the first bad one, whatever comes after it.
pub fn first_row_not_taken_is_bad()
    ensures { FirstRowNotTakenIsBad }
{}

// promise: as reading_is_sound
/// A law: where all rows were taken and they are no record, a row is missing after the last.
pub fn incomplete_records_miss_a_row()
    ensures { IncompleteRecordsMissARow }
{}

// promise: as rows_tell_one_record
/// A law: rows tell a record, or have a first bad row.
pub fn rows_tell_a_record_or_have_a_bad_row()
    ensures { RowsTellARecordOrHaveABadRow }
{}

// promise: as rows_tell_one_record
/// A law: rows that tell a record have no bad row.
pub fn rows_of_a_record_have_no_bad_row()
    ensures { RowsOfARecordHaveNoBadRow }
{}

// promise: as rows_tell_one_record
/// A law: rows have no two first bad rows.
pub fn rows_have_one_first_bad_row()
    ensures { RowsHaveOneFirstBadRow }
{}

// promise: a text has one list of rows, so one record or one bad row
/// A law: a text is read as one list of rows.
pub fn texts_have_one_list_of_rows()
    ensures { TextsHaveOneListOfRows }
{}

// promise: the text of a record has its rows, tells it, and is within 8 GiB
/// A law: what is written of a record is read as its rows.
pub fn written_texts_have_their_rows()
    ensures { WrittenTextsHaveTheirRows }
{}

// promise: as written_texts_have_their_rows
/// A law: what is written of a record tells it.
pub fn written_texts_tell_their_record()
    ensures { WrittenTextsTellTheirRecord }
{}

// promise: as written_texts_have_their_rows
/// A law: what is written of a record is no longer than what may be read.
pub fn written_texts_are_within_the_limit()
    ensures { WrittenTextsAreWithinTheLimit }
{}

// promise: as texts_have_one_list_of_rows
/// A law: a text tells no two records.
pub fn texts_tell_one_record()
    ensures { TextsTellOneRecord }
{}

// promise: as texts_have_one_list_of_rows
/// A law: a text that tells a record is not malformed.
pub fn texts_of_a_record_are_not_malformed()
    ensures { TextsOfARecordAreNotMalformed }
{}

// promise: as texts_have_one_list_of_rows
/// A law: a text is malformed at one row at most.
pub fn texts_are_malformed_at_one_row()
    ensures { TextsAreMalformedAtOneRow }
{}
