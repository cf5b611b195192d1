//! From a text to a record.
ghost use Rattle.std.specs.Prelude.{All, ◌≡◌, ◌≢◌, ◌==◌, false, ◌<◌, ◌≤◌, ◌++◌, ℕ, List, Some, IfErr, IfOk, IfSome, OnOk, length};
ghost use Rattle.csv.specs.Reading.{source_of, strip_bom};
ghost use Rattle.csv.specs.Records.{fields_of};
ghost use Rattle.std.specs.List.{list_any};
ghost use Rattle.ordup_audit.specs.Records.{IsRecord, RecordState};
ghost use Rattle.ordup_rows.specs.Rows.{Row, rows_of, rows_text};
ghost use Rattle.ordup_check.specs.Answers.{AnswersRecord};
ghost use Rattle.ordup_check.specs.Limits.{IsMalformedWithin, never};
ghost use Rattle.ordup_rows.specs.Sizes.{most_record_bytes};
ghost use Rattle.ordup_check.specs.Reading.{EndsAt, HasBadRow, HasRead, IsFresh, IsPlain, IsReached, IsTaken, ReachesEnd, has_never};
ghost use Rattle.ordup_rows.specs.Texts.{TextTells};
ghost use Rattle.ordup_rows.specs.Stages.{closed, unread};
ghost use Rattle.ordup_check.specs.StageViews.{stage_of};
ghost use Rattle.ordup_check.specs.PartialRecords.{record_so_far};

use crate::limited::Limited;
use crate::partial_record::PartialRecord;
use crate::short_rows::ShortRows;
use crate::stage::{Stage, take_row};
use csv::{ByteRecord, Reader, ReaderBuilder};
use ordup_audit::{Record, RecordParts};
use ordup_objects::or_give_up;
use ordup_rows::sizes::MOST_RECORD_BYTES;
use std::alloc::{AllocError, Global};
use std::io::Read;

/// Why no record was read.
#[derive(Clone, Copy, Debug, PartialEq, Eq)]
pub enum RecordReadFault {
    /// A read failed, or there were more bytes than the limit.
    Read,
    /// The row with this number, counted from 1, is the first that breaks a rule; or it is the one after the last row, and rows are
    /// missing.
    Malformed { row: u64 },
    /// Memory was refused.
    NoMemory,
}

/// The record of which all rows were read.
fn whole_record(read: PartialRecord) -> Result<Record, AllocError>
    requires { IsRecord (record_so_far read) }
    ensures { IfOk result (λ r. r ≡ record_so_far read) }
{
    let PartialRecord {
        site,
        updates,
        groups,
        limits,
        reports,
        rounds,
        windows,
    } = read;
    let (objects, log, rest) = or_give_up!(
        updates.into_parts(),
        (groups, limits, reports, rounds, windows)
    );
    Ok(Record::from_parts(RecordParts {
        site,
        objects,
        groups,
        limits,
        log,
        rest,
        reports,
        rounds,
        windows,
    }))
}

/// The record, if no row is missing.
pub fn close(stage: Stage) -> Result<Option<Record>, AllocError>
    requires { IfSome (closed (stage_of stage)) IsRecord }
    ensures { IfOk result (λ r. r ≡ closed (stage_of stage)) }
{
    match stage {
        Stage::Unread => Ok(None),
        Stage::Reading {
            version: _,
            decided,
            so_far,
        } => {
            if so_far.has_updates(decided) {
                Ok(Some(whole_record(so_far)?))
            } else {
                drop(so_far);
                Ok(None)
            }
        }
    }
}

/// For the proof: each byte is less than what stands for one that never comes.
fn see_bytes(bytes: &[u8])
    ensures { list_any (λ b. b == never) bytes.now ≡ false }
{}

/// For the proof: each byte of a row came.
fn see_row(row: &ByteRecord)
    ensures { has_never (fields_of row.now) ≡ false }
{
    see_bytes(row.as_slice());
}

/// Where the reading of rows ended.
#[derive(Clone, Copy)]
pub enum RowsEnd {
    /// At the end of the text. This is the number of the row that would be next.
    Text(u64),
    /// At the row with this number, which may not stand where it stands. It is at hand.
    Row(u64),
}

/// Reads rows to the end, or to the first that may not stand where it stands. The stage is then the one after those before it, of
/// which `read` were read already; where that row begins no record, it is any.
pub fn read_rows<R: Read>(
    alloc: Global,
    rdr: &mut Reader<R>,
    row: &mut ByteRecord,
    stage: &mut Stage,
    read: u64,
) -> Result<RowsEnd, RecordReadFault>
    requires plain { IsPlain rdr.old }
    requires stage { IsReached (stage_of stage.old) }
    ensures plain { OnOk result (IsPlain rdr.new) }
    ensures stage { IfOk result (λ end. ReachesEnd (stage_of stage.new) (fields_of row.new) end) }
    ensures ended { IfOk result (λ end. (text : List ℕ) (before : List Row) → HasRead R.remaining rdr.old before (stage_of stage.old) read text
        → EndsAt R.remaining rdr.new before (stage_of stage.new) (fields_of row.new) text end) }
    ensures after { IfOk result (λ end. (n : ℕ) → end ≡ RowsEnd.Text n → read < n) }
    ensures fault { IfErr result (λ e. (n : ℕ) → e ≢ RecordReadFault.Malformed n) }
{
    for count in read..u64::MAX {
        let is_found = match rdr.read_byte_record(row) {
            Ok(is_found) => is_found,
            Err(e) if e.is_io_error() => return Err(RecordReadFault::Read),
            Err(_) => return Err(RecordReadFault::NoMemory),
        };
        if !is_found {
            return Ok(RowsEnd::Text(count + 1));
        }
        see_row(row);
        let Ok(is_taken) = take_row(alloc, stage, row) else {
            return Err(RecordReadFault::NoMemory);
        };
        if !is_taken {
            return Ok(RowsEnd::Row(count + 1));
        }
    }
    Err(RecordReadFault::Read)
}

/// Reads all rows of a text as [`read_rows`] does, each of which may stand where it stands. It answers the stage after them, and the
/// number of the row that would be next.
fn read_stage<R: Read>(alloc: Global, rdr: &mut Reader<R>) -> Result<(Stage, u64), RecordReadFault>
    requires { IsFresh rdr.old }
    ensures taken { IfOk result (λ p. IfSome (source_of R.remaining rdr.old) (λ text. IsTaken text (stage_of p.0) p.1)) }
    ensures sound { IfOk result (λ p. IfSome (closed (stage_of p.0)) IsRecord) }
    ensures malformed { IfErr result (λ e. (n : ℕ) → e ≡ RecordReadFault.Malformed n
        → IfSome (source_of R.remaining rdr.old) (λ text. HasBadRow text n)) }
{
    let mut row = ByteRecord::new(alloc);
    let mut stage = Stage::Unread;
    let read = read_rows(alloc, rdr, &mut row, &mut stage, 0);
    drop(row);
    match or_give_up!(read, stage) {
        RowsEnd::Text(next) => Ok((stage, next)),
        RowsEnd::Row(row) => {
            drop(stage);
            Err(RecordReadFault::Malformed { row })
        }
    }
}

// promise malformed: as read_record malformed
// promise read limited told: as read_record read
/// Reads a record of at most `limit` bytes. A byte order mark at the start is passed over. It promises, clause by clause, of a
/// reader whose bytes are known:
///
/// - `read`: the record is the one that the text tells.
/// - `limited`: it is read from a text within the limit alone.
/// - `malformed`: `Malformed` has the number of the first row that breaks a rule; or of the row after the last, where rows are
///   missing. Of a text over the limit this holds however the text goes on after the limit.
/// - `told`: a text within the limit that tells a record is answered by that record, unless a read fails or memory is refused.
pub fn read_record_within<R: Read>(
    alloc: Global,
    input: &mut R,
    limit: u64,
) -> Result<Record, RecordReadFault>
    ensures read { IfOk result (λ r. IfSome (R.remaining input.old) (λ text. TextTells (strip_bom text) r)) }
    ensures limited { OnOk result (IfSome (R.remaining input.old) (λ text. length text ≤ limit)) }
    ensures malformed { IfErr result (λ e. (n : ℕ) → e ≡ RecordReadFault.Malformed n
        → IfSome (R.remaining input.old) (λ text. IsMalformedWithin limit text n)) }
    ensures told { (text : List ℕ) (r : RecordState) → R.remaining input.old ≡ Some text → length text ≤ limit
        → TextTells (strip_bom text) r → AnswersRecord result r }
{
    let mut rdr = ReaderBuilder::new()
        .has_headers(false)
        .flexible(true)
        .from_reader(alloc, ShortRows::new(Limited::new(input, limit)));
    let read = read_stage(alloc, &mut rdr);
    drop(rdr);
    let (stage, row) = read?;
    match close(stage) {
        Ok(Some(record)) => Ok(record),
        Ok(None) => Err(RecordReadFault::Malformed { row }),
        Err(_) => Err(RecordReadFault::NoMemory),
    }
}

// promise malformed: a text is malformed at its first bad or missing row, whatever follows the limit
// promise read limited told written: just a text within the limit that tells a record is read as it
/// Reads a record of at most 8 GiB. A byte order mark at the start is passed over. It promises, clause by clause, of a reader whose
/// bytes are known:
///
/// - `read`: the record is the one that the text tells.
/// - `limited`: it is read from a text of at most 8 GiB alone.
/// - `malformed`: `Malformed` has the number of the first row that breaks a rule; or of the row after the last, where rows are
///   missing. Of a longer text this holds however the text goes on after 8 GiB.
/// - `told`: a text within the limit that tells a record is answered by that record, unless a read fails or memory is refused.
/// - `written`: so is the text of each record, as [`write_record`](crate::write_record) writes it.
pub fn read_record<R: Read>(alloc: Global, input: &mut R) -> Result<Record, RecordReadFault>
    ensures read { IfOk result (λ r. IfSome (R.remaining input.old) (λ text. TextTells (strip_bom text) r)) }
    ensures limited { OnOk result (IfSome (R.remaining input.old) (λ text. length text ≤ most_record_bytes)) }
    ensures malformed { IfErr result (λ e. (n : ℕ) → e ≡ RecordReadFault.Malformed n
        → IfSome (R.remaining input.old) (λ text. IsMalformedWithin most_record_bytes text n)) }
    ensures told { (text : List ℕ) (r : RecordState) → R.remaining input.old ≡ Some text → length text ≤ most_record_bytes
        → TextTells (strip_bom text) r → AnswersRecord result r }
    ensures written { (r : RecordState) → IsRecord r → R.remaining input.old ≡ Some (rows_text (rows_of r)) → AnswersRecord result r }
{
    read_record_within(alloc, input, MOST_RECORD_BYTES)
}
