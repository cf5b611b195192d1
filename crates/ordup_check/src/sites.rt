//! The audit of a text of records of several sites of one store.
ghost use Rattle.std.specs.Prelude.{All, ◌≡◌, ◌≢◌, ◌≤◌, ℕ, List, [], IfErr, IfOk, IfSome, Some, length};
ghost use Rattle.csv.specs.Reading.{strip_bom};
ghost use Rattle.ordup_audit.specs.Records.{IsRecord, RecordState};
ghost use Rattle.ordup_sites.specs.Audits.{HasAudited};
ghost use Rattle.ordup_sites.specs.Sites.{AreValidSites};
ghost use Rattle.ordup_check.specs.Answers.{AnswersSeries};
ghost use Rattle.ordup_check.specs.Reading.{IsPlain};
ghost use Rattle.ordup_check.specs.SeriesLaws.{texts_of};
ghost use Rattle.ordup_check.specs.SeriesReading.{HasReadRecords, TextTellsSeries};
ghost use Rattle.ordup_check.specs.SitesVerdicts.{IsMalformedSites, JudgesSites};
ghost use Rattle.ordup_check.specs.declared.series.SeriesReadFault.{SeriesReadFault};
ghost use Rattle.ordup_check.specs.declared.sizes.TheConstants.{MOST_SERIES_BYTES};

use crate::series::{SeriesReadFault, series_fault};
use crate::series_reader::SeriesReader;
use crate::sizes::MOST_SERIES_BYTES;
use ordup_series::SeriesVerdict;
use ordup_series::sizes::MOST_RECORDS;
use ordup_sites::SitesAudit;
use std::alloc::Global;
use std::io::Read;

// promise verdict told written: records of sites that are valid and the same are answered their rounds; else the first reason
// promise malformed: the first bad row is told after records of valid sites
/// Audits the records of several sites of one store, one after another, each from its first row on. It holds two records at a time, the
/// one with the most updates so far and the next, and reads up to the first against which there is a reason. It promises, clause by
/// clause, of a reader whose bytes are known:
///
/// - `verdict`: a number where the text tells records that are valid, and of which each two have the same objects with the same initial
///   values, the same groups, and updates of which those of one are the first of the other: the number of the rounds of all, and for no
///   record has a schedule that keeps the limits fewer. Else the first reason against the first record that has one.
/// - `malformed`: the row of the record is the first that breaks a rule, after records of which this is so.
/// - `told`: a text that tells such records is answered by the number of their rounds, unless a read fails or memory is refused.
/// - `written`: so are the texts of such records, one behind the other, each as [`write_record`](crate::write_record) writes it.
pub fn audit_sites<R: Read>(alloc: Global, input: &mut R) -> Result<SeriesVerdict, SeriesReadFault>
    ensures verdict { IfOk result (λ v. IfSome (R.remaining input.old) (λ text. JudgesSites text v)) }
    ensures malformed { IfErr result (λ e. (place row : ℕ) → e ≡ SeriesReadFault.Malformed place row
        → IfSome (R.remaining input.old) (λ text. IsMalformedSites text place row)) }
    ensures told { (text : List ℕ) (records : List RecordState) → R.remaining input.old ≡ Some text → length text ≤ MOST_SERIES_BYTES
        → TextTellsSeries (strip_bom text) records → records ≢ [] → AreValidSites records → AnswersSeries result records }
    ensures written { (records : List RecordState) → R.remaining input.old ≡ Some (texts_of records)
        → length (texts_of records) ≤ MOST_SERIES_BYTES → All IsRecord records → records ≢ [] → AreValidSites records
        → AnswersSeries result records }
{
    let mut records = SeriesReader::new(alloc, input, MOST_SERIES_BYTES);
    let mut audit = SitesAudit::new();
    let verdict = audit_each(alloc, &mut records, &mut audit);
    drop(audit);
    drop(records);
    verdict
}

/// Audits all records of sites, up to the first against which there is a reason.
fn audit_each<R: Read>(
    alloc: Global,
    records: &mut SeriesReader<R>,
    audit: &mut SitesAudit,
) -> Result<SeriesVerdict, SeriesReadFault>
    requires plain { IsPlain records.old.rdr }
    requires first { HasAudited audit.old [] }
    ensures verdict { IfOk result (λ v. (text : List ℕ) → HasReadRecords R.remaining MOST_SERIES_BYTES records.old text []
        → JudgesSites text v) }
    ensures malformed { IfErr result (λ e. (place row : ℕ) → e ≡ SeriesReadFault.Malformed place row
        → (text : List ℕ) → HasReadRecords R.remaining MOST_SERIES_BYTES records.old text [] → IsMalformedSites text place row) }
{
    for count in 0..MOST_RECORDS {
        let record = match records.next(alloc) {
            Ok(Some(record)) => record,
            Ok(None) => return Ok(SeriesVerdict::Fewest(audit.rounds())),
            Err(fault) => return Err(series_fault(fault, count + 1)),
        };
        let verdict = audit.take(record);
        if !verdict.is_yes() {
            return Ok(verdict);
        }
    }
    Err(SeriesReadFault::Read)
}
