//! The job `lag --series`.
ghost use Rattle.std.specs.Prelude.{◌≡◌, ◌<◌, ◌⊎◌, ℕ, List, [], Option, IfSome, Ok, Err};
ghost use Rattle.std.specs.Io.KnownBytes.{Keeps};
ghost use Rattle.ordup_audit.specs.Records.{RecordState};
ghost use Rattle.ordup_series.specs.Audits.{HasAudited};
ghost use Rattle.ordup_series.specs.declared.sizes.TheConstants.{MOST_RECORDS};
ghost use Rattle.ordup_check.specs.Reading.{IsPlain};
ghost use Rattle.ordup_check.specs.SeriesReading.{HasReadRecords};
ghost use Rattle.ordup_check.specs.declared.sizes.TheConstants.{MOST_SERIES_BYTES};
ghost use Rattle.ordup_verdicts.specs.SeriesLags.{LagsOfSeries, PrintsNext};

use crate::faults::{fault_of_lag, fault_of_next};
use crate::series::print_series_verdict;
use ordup_audit::Record;
use ordup_check::sizes::MOST_SERIES_BYTES;
use ordup_check::{SeriesAudit, SeriesReader};
use ordup_faults::{DONE, Fault, Outcome, flush};
use ordup_lag::{Offsets, write_lag};
use ordup_series::sizes::MOST_RECORDS;
use std::alloc::Global;
use std::io::{Read, Write};

// promise LagsOfSeries: `ordup lag --series` prints the lag of a valid series, then a verdict against the next record
/// Reads records of one site, one after another, and prints the lag of each, with places and windows counted on; or, after those of
/// the records before it, the verdict on the first against which there is a reason.
///
/// - Where it ends with a status, the text tells a valid series, whose lag was printed (0); or it begins with one and a record against
///   which there is a reason, and the verdict was printed after the lag of the series (1).
/// - A write fault: a prefix of that was printed.
/// - `MalformedRecord`: the row of the record is the first that breaks a rule. The lag of those before it was printed.
/// - `Read`, `NoMemory`: the lag of a valid series was printed with which the text begins.
pub fn print_lag_of_series<R: Read, W: Write>(
    alloc: Global,
    input: &mut R,
    output: &mut W,
) -> Outcome
    ensures { LagsOfSeries (R.remaining input.old) (W.contents output.old) (W.contents output.new) result }
{
    let mut records = SeriesReader::new(alloc, input, MOST_SERIES_BYTES);
    let mut audit = SeriesAudit::new();
    let printed = print_all(alloc, &mut records, &mut audit, output);
    drop(audit);
    drop(records);
    printed
}

/// Prints the lag of all records, up to the first against which there is a reason.
fn print_all<R: Read, W: Write>(
    alloc: Global,
    records: &mut SeriesReader<R>,
    audit: &mut SeriesAudit,
    output: &mut W,
) -> Outcome
    requires plain { IsPlain records.old.rdr }
    requires first { HasAudited audit.old [] }
    ensures { (had : Option (List ℕ)) → IfSome had (λ text. HasReadRecords R.remaining MOST_SERIES_BYTES records.old text [])
        → LagsOfSeries had (W.contents output.old) (W.contents output.new) result }
{
    for count in 0..MOST_RECORDS {
        let next = match records.next(alloc) {
            Ok(Some(next)) => next,
            Ok(None) => return end_lag(output),
            Err(fault) => return Err(fault_of_next(fault, count + 1)),
        };
        let printed = print_next(alloc, audit, &next, output);
        next.discard();
        let ended = match printed {
            Ok(ended) => ended,
            Err(fault) => return Err(fault),
        };
        if let Some(status) = ended {
            return Ok(status);
        }
    }
    Err(Fault::Read)
}

/// Flushes the lag of all records.
fn end_lag<W: Write>(output: &mut W) -> Outcome
    ensures kept { Keeps (W.contents output.old) (W.contents output.new) }
    ensures ended { (result ≡ Ok 0) ⊎ (result ≡ Err Fault.Write) }
{
    match flush(output) {
        Ok(()) => Ok(DONE),
        Err(_) => Err(Fault::Write),
    }
}

/// Prints the lag of the next record, or the verdict where there is a reason against it, and then answers the exit status.
fn print_next<W: Write>(
    alloc: Global,
    audit: &mut SeriesAudit,
    next: &Record,
    output: &mut W,
) -> Result<Option<u8>, Fault>
    requires audited { (done : List RecordState) × HasAudited audit.old done }
    requires more { audit.old.records < MOST_RECORDS }
    ensures { (done : List RecordState) → HasAudited audit.old done
        → PrintsNext done next.now audit.new (W.contents output.old) (W.contents output.new) result }
{
    let before = Offsets {
        places: audit.places(),
        windows: audit.rounds(),
    };
    let Ok(verdict) = audit.take(alloc, next) else {
        return Err(Fault::NoMemory);
    };
    if !verdict.is_yes() {
        return match print_series_verdict(alloc, verdict, output) {
            Ok(status) => Ok(Some(status)),
            Err(fault) => Err(fault),
        };
    }
    match write_lag(alloc, next, before, output) {
        Ok(()) => Ok(None),
        Err(fault) => Err(fault_of_lag(fault)),
    }
}
