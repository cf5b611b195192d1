//! The check of a record, as a line in a buffer.
ghost use Rattle.std.specs.Prelude.{◌≡◌, ◌⊎◌, ◌++◌, ◌<◌, [], length, MatchResult, Ok, OnOk};
ghost use Rattle.ordup_rows.specs.Sizes.{most_record_bytes};
ghost use Rattle.ordup_c.specs.Checks.{ChecksCall, ChecksSeriesCall, Finds, FindsSeries, malformed_line, malformed_record_line, series_line, verdict_line};
ghost use Rattle.ordup_c.specs.declared.status.TheConstants.{NO_MEMORY, TOO_LONG};

use crate::record::copy_whole;
use crate::status::{DONE, MALFORMED, NO_MEMORY, TOO_LONG};
use ordup_audit::{Verdict, check};
use ordup_check::{RecordReadFault, SeriesReadFault, SeriesVerdict, audit_series, read_record};
use ordup_rows::sizes::MOST_RECORD_BYTES;
use ordup_text::{TextBuffer, push_with_number};
use std::alloc::{AllocError, Global};

/// Checks a record, and tells the verdict: how long its line is, and the line where it fits.
pub(crate) fn tell_verdict(alloc: Global, rows: &[u8], out: &mut [u8], written: &mut usize) -> u32
    ensures { ChecksCall rows.now out.old out.new written.new result }
{
    let mut line = TextBuffer::new(alloc);
    let status = match find_line(alloc, rows, &mut line) {
        Ok(found) => {
            *written = line.len();
            copy_whole(line.as_slice(), found, out)
        }
        Err(status) => {
            *written = 0;
            status
        }
    };
    drop(line);
    status
}

/// Checks a record, and adds its line to a text that is empty. The answer is the status that goes with the line, or why there is none.
fn find_line(alloc: Global, rows: &[u8], line: &mut TextBuffer) -> Result<u32, u32>
    requires { line.old.text ≡ [] }
    ensures { MatchResult result (λ found. Finds rows.now line.new.text found) (λ status. (status ≡ NO_MEMORY) ⊎ ((most_record_bytes < length rows.now) × (status ≡ TOO_LONG))) }
{
    let mut input = rows;
    match read_record(alloc, &mut input) {
        Ok(audited) => {
            let verdict = check(&audited);
            audited.discard();
            found(push_verdict(line, verdict), DONE)
        }
        Err(RecordReadFault::Malformed { row }) => found(push_malformed(line, row), MALFORMED),
        Err(RecordReadFault::NoMemory) => Err(NO_MEMORY),
        Err(RecordReadFault::Read) if rows.len() as u64 > MOST_RECORD_BYTES => Err(TOO_LONG),
        // No other read of a text in memory fails.
        Err(RecordReadFault::Read) => Err(NO_MEMORY),
    }
}

/// This status, where a line found memory.
fn found(pushed: Result<(), AllocError>, status: u32) -> Result<u32, u32>
    ensures { MatchResult result (λ found. (pushed ≡ Ok tt) × (found ≡ status)) (λ e. e ≡ NO_MEMORY) }
{
    match pushed {
        Ok(()) => Ok(status),
        Err(_) => Err(NO_MEMORY),
    }
}

/// Adds the line of a verdict.
fn push_verdict(out: &mut TextBuffer, verdict: Verdict) -> Result<(), AllocError>
    ensures { OnOk result (out.new.text ≡ out.old.text ++ verdict_line verdict) }
{
    match verdict {
        Verdict::Fewest(rounds) => {
            push_with_number(out, b"yes ", rounds)?;
            out.push(b"\n")
        }
        Verdict::No { row, reason } => {
            push_with_number(out, b"no ", row)?;
            out.push(b" ")?;
            out.push(reason.name().as_bytes())?;
            out.push(b"\n")
        }
    }
}

/// Adds the line of a row that breaks a rule.
fn push_malformed(out: &mut TextBuffer, row: u64) -> Result<(), AllocError>
    ensures { OnOk result (out.new.text ≡ out.old.text ++ malformed_line row) }
{
    push_with_number(out, b"malformed ", row)?;
    out.push(b"\n")
}

/// Audits records, one after another, and tells the verdict: how long its line is, and the line where it fits.
pub(crate) fn tell_series_verdict(
    alloc: Global,
    rows: &[u8],
    out: &mut [u8],
    written: &mut usize,
) -> u32
    ensures { ChecksSeriesCall rows.now out.old out.new written.new result }
{
    let mut line = TextBuffer::new(alloc);
    let status = match find_series_line(alloc, rows, &mut line) {
        Ok(found) => {
            *written = line.len();
            copy_whole(line.as_slice(), found, out)
        }
        Err(status) => {
            *written = 0;
            status
        }
    };
    drop(line);
    status
}

/// Audits records, and adds the line of the verdict to a text that is empty. The answer is the status that goes with the line, or that
/// memory was refused.
fn find_series_line(alloc: Global, rows: &[u8], line: &mut TextBuffer) -> Result<u32, u32>
    requires { line.old.text ≡ [] }
    ensures { MatchResult result (λ found. FindsSeries rows.now line.new.text found) (λ status. status ≡ NO_MEMORY) }
{
    let mut input = rows;
    match audit_series(alloc, &mut input) {
        Ok(verdict) => found(push_series_verdict(line, verdict), DONE),
        Err(SeriesReadFault::Malformed { record, row }) => {
            found(push_malformed_record(line, record, row), MALFORMED)
        }
        Err(SeriesReadFault::NoMemory) => Err(NO_MEMORY),
        // No read of a text in memory fails.
        Err(SeriesReadFault::Read) => Err(NO_MEMORY),
    }
}

/// Adds the line of the verdict on a series.
fn push_series_verdict(out: &mut TextBuffer, verdict: SeriesVerdict) -> Result<(), AllocError>
    ensures { OnOk result (out.new.text ≡ out.old.text ++ series_line verdict) }
{
    match verdict {
        SeriesVerdict::Fewest(total) => {
            push_with_number(out, b"yes ", total)?;
            out.push(b"\n")
        }
        SeriesVerdict::No {
            record,
            row,
            reason,
        } => {
            push_with_number(out, b"no ", record)?;
            push_with_number(out, b" ", row)?;
            out.push(b" ")?;
            out.push(reason.name().as_bytes())?;
            out.push(b"\n")
        }
    }
}

/// Adds the line of a row of a record that breaks a rule.
fn push_malformed_record(out: &mut TextBuffer, place: u64, row: u64) -> Result<(), AllocError>
    ensures { OnOk result (out.new.text ≡ out.old.text ++ malformed_record_line place row) }
{
    push_with_number(out, b"malformed ", place)?;
    push_with_number(out, b" ", row)?;
    out.push(b"\n")
}
