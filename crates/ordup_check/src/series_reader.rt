//! From a text to the records of a series, one after another.
//!
//! Each record begins at a row of the kind `ordup`. So a record ends where the next one begins, or where the text does. That row is
//! read before the record is answered, and kept for the next one.
ghost use Rattle.std.specs.Prelude.{◌≡◌, ◌≢◌, [], ℕ, List, Some, IfErr, IfNone, IfOk, IfSome, OnOk};
ghost use Rattle.csv.specs.Records.{fields_of};
ghost use Rattle.ordup_audit.specs.Records.{IsRecord, RecordState};
ghost use Rattle.ordup_rows.specs.Rows.{Row};
ghost use Rattle.ordup_rows.specs.Stages.{unread};
ghost use Rattle.ordup_check.specs.SeriesReading.{AreRowsOf, HasReadRecords, NextBegins, NextRecord, StandsBefore, limited_bytes, passed, short_bytes};
ghost use Rattle.ordup_check.specs.Reading.{EndsAt, IsPlain, ReachesEnd, begins_record};
ghost use Rattle.ordup_check.specs.StageViews.{stage_of};

use crate::limited::Limited;
use crate::reading::{RecordReadFault, RowsEnd, close, read_rows};
use crate::short_rows::ShortRows;
use crate::stage::{Stage, take_row};
use csv::{ByteRecord, Reader, ReaderBuilder};
use ordup_audit::Record;
use std::alloc::Global;
use std::io::Read;

/// Where the reading of a series stands.
#[derive(Clone, Copy)]
enum Position {
    /// At the start of the text.
    Start,
    /// After the first row of a record. It is at hand.
    FirstRow,
    /// At the end of the text.
    End,
}

/// Reads the records of a series, one after another.
#[derive(Drop)]
pub struct SeriesReader<R: Read> {
    rdr: Reader<ShortRows<Limited<R>>>,
    row: ByteRecord,
    position: Position,
}

/// Whether a row is the first of a record.
fn begins_record(row: &ByteRecord) -> bool
    ensures { result ≡ begins_record (fields_of row.now) }
{
    match row.get(0) {
        Some(kind) => kind == b"ordup".as_slice(),
        None => false,
    }
}

impl<R: Read> SeriesReader<R> {
    // promise: the records of a text are read in turn, up to its end or its first bad row
    /// The records of a text of at most `limit` bytes.
    pub fn new(alloc: Global, input: R, limit: u64) -> Self
        ensures plain { IsPlain result.rdr }
        ensures first { (text : List ℕ) → R.remaining input ≡ Some text → HasReadRecords R.remaining limit result text [] }
    {
        SeriesReader {
            rdr: ReaderBuilder::new()
                .has_headers(false)
                .flexible(true)
                .from_reader(alloc, ShortRows::new(Limited::new(input, limit))),
            row: ByteRecord::new(alloc),
            position: Position::Start,
        }
    }

    // promise next sound: as SeriesReader::new
    /// The next record, and none after the last. Of a text without a row the first record misses its first row.
    pub fn next(&mut self, alloc: Global) -> Result<Option<Record>, RecordReadFault>
        requires plain { IsPlain self.old.rdr }
        ensures plain { OnOk result (IsPlain self.new.rdr) }
        ensures next { (limit : ℕ) (text : List ℕ) (records : List RecordState) → HasReadRecords R.remaining limit self.old text records
            → NextRecord R.remaining limit self.new text records result }
        ensures sound { IfOk result (λ o. IfSome o IsRecord) }
    {
        let mut stage = Stage::Unread;
        match self.read_stage(alloc, &mut stage) {
            Ok(Some(end)) => self.end_record(stage, end),
            Ok(None) => {
                drop(stage);
                Ok(None)
            }
            Err(fault) => {
                drop(stage);
                Err(fault)
            }
        }
    }

    /// Reads the rows of the next record, as far as they may stand where they stand. It has none after the last record.
    fn read_stage(
        &mut self,
        alloc: Global,
        stage: &mut Stage,
    ) -> Result<Option<RowsEnd>, RecordReadFault>
        requires plain { IsPlain self.old.rdr }
        requires unread { stage_of stage.old ≡ unread }
        ensures plain { OnOk result (IsPlain self.new.rdr) }
        ensures position { self.new.position ≡ self.old.position }
        ensures none { IfOk result (λ o. IfNone o (self.old.position ≡ Position.End)) }
        ensures some { IfOk result (λ o. IfSome o (λ end. self.old.position ≢ Position.End)) }
        ensures stage { IfOk result (λ o. IfSome o (λ end. ReachesEnd (stage_of stage.new) (fields_of self.new.row) end)) }
        ensures ended { IfOk result (λ o. IfSome o (λ end. (text : List ℕ) (before : List Row)
            → StandsBefore (short_bytes (limited_bytes R.remaining)) self.old.position self.old.rdr (fields_of self.old.row) text before
            → EndsAt (short_bytes (limited_bytes R.remaining)) self.new.rdr before (stage_of stage.new) (fields_of self.new.row) text end)) }
        ensures fault { IfErr result (λ e. (n : ℕ) → e ≢ RecordReadFault.Malformed n) }
    {
        match self.position {
            Position::End => Ok(None),
            Position::Start => {
                let end = read_rows(alloc, &mut self.rdr, &mut self.row, stage, 0)?;
                Ok(Some(end))
            }
            Position::FirstRow => match take_row(alloc, stage, &self.row) {
                Ok(true) => {
                    let end = read_rows(alloc, &mut self.rdr, &mut self.row, stage, 1)?;
                    Ok(Some(end))
                }
                Ok(false) => Ok(Some(RowsEnd::Row(1))),
                Err(_) => Err(RecordReadFault::NoMemory),
            },
        }
    }

    /// The record of which all rows were read that come before this end, if it misses none and the next record begins there or the text
    /// ends.
    fn end_record(&mut self, stage: Stage, end: RowsEnd) -> Result<Option<Record>, RecordReadFault>
        requires plain { IsPlain self.old.rdr }
        requires reached { ReachesEnd (stage_of stage) (fields_of self.old.row) end }
        ensures plain { OnOk result (IsPlain self.new.rdr) }
        ensures next { (limit : ℕ) (text : List ℕ) (before : List Row) (records : List RecordState) → AreRowsOf before records
            → EndsAt (short_bytes (limited_bytes R.remaining)) self.old.rdr before (stage_of stage) (fields_of self.old.row)
            (passed limit text) end
            → NextBegins (passed limit text) before → NextRecord R.remaining limit self.new text records result }
        ensures sound { IfOk result (λ o. IfSome o IsRecord) }
    {
        let row = match end {
            RowsEnd::Text(row) => {
                self.position = Position::End;
                row
            }
            RowsEnd::Row(row) if begins_record(&self.row) => {
                self.position = Position::FirstRow;
                row
            }
            RowsEnd::Row(row) => {
                drop(stage);
                return Err(RecordReadFault::Malformed { row });
            }
        };
        match close(stage) {
            Ok(Some(record)) => Ok(Some(record)),
            Ok(None) => Err(RecordReadFault::Malformed { row }),
            Err(_) => Err(RecordReadFault::NoMemory),
        }
    }
}
