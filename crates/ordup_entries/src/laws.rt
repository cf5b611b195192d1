//! Laws of the form of entries.
ghost use Rattle.ordup_entries.specs.Laws.{ReadingGivesBackWhatWasWritten, WhatIsReadWasWritten, NoTwoEntriesHaveOneText};

// promise: what is written of an entry of the form is read as that entry
/// A law: what was written of an entry of the form is read as that entry.
pub fn reading_gives_back_what_was_written()
    ensures { ReadingGivesBackWhatWasWritten }
{}

// promise: as reading_gives_back_what_was_written
/// A law: what is read as an entry is what is written of it, and it is of the form.
pub fn what_is_read_was_written()
    ensures { WhatIsReadWasWritten }
{}

// promise: as reading_gives_back_what_was_written
/// A law: two entries of the form that have one text are one.
pub fn no_two_entries_have_one_text()
    ensures { NoTwoEntriesHaveOneText }
{}
