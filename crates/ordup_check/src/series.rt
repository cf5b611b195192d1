//! The audit of a text of records, one after another.
ghost use Rattle.std.specs.Prelude.{All, ◌≡◌, ◌≢◌, ◌≤◌, ℕ, List, [], Some, IfErr, IfOk, IfSome, length};
ghost use Rattle.csv.specs.Reading.{strip_bom};
ghost use Rattle.ordup_audit.specs.Records.{IsRecord, RecordState};
ghost use Rattle.ordup_series.specs.Audits.{AreValidSeries, HasAudited};
ghost use Rattle.ordup_check.specs.Answers.{AnswersSeries};
ghost use Rattle.ordup_check.specs.Reading.{IsPlain};
ghost use Rattle.ordup_check.specs.SeriesLaws.{texts_of};
ghost use Rattle.ordup_check.specs.SeriesReading.{HasReadRecords, TextTellsSeries};
ghost use Rattle.ordup_check.specs.SeriesVerdicts.{IsMalformedSeries, JudgesText, series_fault};
ghost use Rattle.ordup_check.specs.declared.sizes.TheConstants.{MOST_SERIES_BYTES};

use crate::reading::RecordReadFault;
use crate::series_reader::SeriesReader;
use crate::sizes::MOST_SERIES_BYTES;
use ordup_series::sizes::MOST_RECORDS;
use ordup_series::{SeriesAudit, SeriesVerdict};
use std::alloc::Global;
use std::io::Read;

/// Why no verdict on a series of records was found.
#[derive(Clone, Copy, Debug, PartialEq, Eq)]
pub enum SeriesReadFault {
    /// A read failed, or there were more bytes or records than the limit.
    Read,
    /// This row of this record, both counted from 1, is the first that breaks a rule; or it is the one after the last row, and rows
    /// are missing. The records before are a valid series.
    Malformed { record: u64, row: u64 },
    /// Memory was refused.
    NoMemory,
}

// promise verdict told written: a valid series is answered its rounds, the fewest; else the first reason
// promise malformed: the first bad row is told after a valid series
/// Audits the records of one site, one after another, each from its first row on: of a store, of the one that goes on from it, and so
/// on. It holds one record at a time, and reads up to the first against which there is a reason. It promises, clause by clause, of a
/// reader whose bytes are known:
///
/// - `verdict`: a number where the text tells a series of valid records, each of which begins with what the one before ends with: the
///   number of the rounds of all, and no schedule of the whole that keeps the limits has fewer. Else the first reason against the first
///   record that has one.
/// - `malformed`: the row of the record is the first that breaks a rule, after records that are a valid series.
/// - `told`: a text that tells a valid series is answered by the number of its rounds, unless a read fails or memory is refused.
/// - `written`: so are the texts of the records of a valid series, one behind the other, each as [`write_record`](crate::write_record)
///   writes it.
pub fn audit_series<R: Read>(alloc: Global, input: &mut R) -> Result<SeriesVerdict, SeriesReadFault>
    ensures verdict { IfOk result (λ v. IfSome (R.remaining input.old) (λ text. JudgesText text v)) }
    ensures malformed { IfErr result (λ e. (place row : ℕ) → e ≡ SeriesReadFault.Malformed place row
        → IfSome (R.remaining input.old) (λ text. IsMalformedSeries text place row)) }
    ensures told { (text : List ℕ) (records : List RecordState) → R.remaining input.old ≡ Some text → length text ≤ MOST_SERIES_BYTES
        → TextTellsSeries (strip_bom text) records → records ≢ [] → AreValidSeries records → AnswersSeries result records }
    ensures written { (records : List RecordState) → R.remaining input.old ≡ Some (texts_of records)
        → length (texts_of records) ≤ MOST_SERIES_BYTES → All IsRecord records → records ≢ [] → AreValidSeries records
        → AnswersSeries result records }
{
    let mut records = SeriesReader::new(alloc, input, MOST_SERIES_BYTES);
    let mut audit = SeriesAudit::new();
    let verdict = audit_all(alloc, &mut records, &mut audit);
    drop(audit);
    drop(records);
    verdict
}

/// Audits all records, up to the first against which there is a reason.
fn audit_all<R: Read>(
    alloc: Global,
    records: &mut SeriesReader<R>,
    audit: &mut SeriesAudit,
) -> Result<SeriesVerdict, SeriesReadFault>
    requires plain { IsPlain records.old.rdr }
    requires first { HasAudited audit.old [] }
    ensures verdict { IfOk result (λ v. (text : List ℕ) → HasReadRecords R.remaining MOST_SERIES_BYTES records.old text []
        → JudgesText text v) }
    ensures malformed { IfErr result (λ e. (place row : ℕ) → e ≡ SeriesReadFault.Malformed place row
        → (text : List ℕ) → HasReadRecords R.remaining MOST_SERIES_BYTES records.old text [] → IsMalformedSeries text place row) }
{
    for count in 0..MOST_RECORDS {
        let record = match records.next(alloc) {
            Ok(Some(record)) => record,
            Ok(None) => return Ok(SeriesVerdict::Fewest(audit.rounds())),
            Err(fault) => return Err(series_fault(fault, count + 1)),
        };
        let verdict = audit.take(alloc, &record);
        record.discard();
        let Ok(verdict) = verdict else {
            return Err(SeriesReadFault::NoMemory);
        };
        if !verdict.is_yes() {
            return Ok(verdict);
        }
    }
    Err(SeriesReadFault::Read)
}

/// The fault of reading the record at this place of a series, counted from 1.
pub(crate) fn series_fault(fault: RecordReadFault, place: u64) -> SeriesReadFault
    ensures { result ≡ series_fault fault place }
{
    match fault {
        RecordReadFault::Read => SeriesReadFault::Read,
        RecordReadFault::Malformed { row } => SeriesReadFault::Malformed { record: place, row },
        RecordReadFault::NoMemory => SeriesReadFault::NoMemory,
    }
}
