//! The jobs `check --series` and `check --sites`, and the line of their verdicts.
ghost use Rattle.std.specs.Prelude.{◌≡◌, IfOk, string_bytes};
ghost use Rattle.ordup_verdicts.specs.Series.{ChecksSeries, ChecksSites, PrintsSeriesVerdict, series_verdict_status, series_verdict_text};

use crate::faults::fault_of_series_reading;
use ordup_check::{SeriesVerdict, audit_series, audit_sites};
use ordup_faults::{DONE, Fault, NOT_DONE, Outcome, flush};
use ordup_text::send;
use std::alloc::{AllocError, Global};
use std::io::{Read, Write};

// promise ChecksSeries: `ordup check --series` prints the verdict on its records, or tells the first bad row
/// Audits the records of a site, one after another, and prints the verdict on all.
///
/// - Where it ends with a status or a write fault, the verdict on the text was printed, or a prefix of that line.
/// - `MalformedRecord`: the row of the record is the first that breaks a rule. Those before it are a valid series. Nothing was written.
/// - `Read`, `NoMemory`: nothing was written.
pub fn check_series<R: Read, W: Write>(alloc: Global, input: &mut R, output: &mut W) -> Outcome
    ensures { ChecksSeries (R.remaining input.old) (W.contents output.old) (W.contents output.new) result }
{
    match audit_series(alloc, input) {
        Ok(verdict) => print_series_verdict(alloc, verdict, output),
        Err(fault) => Err(fault_of_series_reading(fault)),
    }
}

// promise ChecksSites: `ordup check --sites` prints the verdict on its records, or tells the first bad row
/// Audits the records of several sites of one store, one after another, and prints the verdict on all. It ends as [`check_series`]
/// does.
pub fn check_sites<R: Read, W: Write>(alloc: Global, input: &mut R, output: &mut W) -> Outcome
    ensures { ChecksSites (R.remaining input.old) (W.contents output.old) (W.contents output.new) result }
{
    match audit_sites(alloc, input) {
        Ok(verdict) => print_series_verdict(alloc, verdict, output),
        Err(fault) => Err(fault_of_series_reading(fault)),
    }
}

/// Prints the line of the verdict on a series, and answers the exit status that goes with it.
pub(crate) fn print_series_verdict<W: Write>(
    alloc: Global,
    verdict: SeriesVerdict,
    output: &mut W,
) -> Outcome
    ensures { PrintsSeriesVerdict verdict (W.contents output.old) (W.contents output.new) result }
{
    let Ok(line) = line_of(alloc, verdict) else {
        return Err(Fault::NoMemory);
    };
    let Ok(()) = send(output, line.as_bytes()) else {
        return Err(Fault::Write);
    };
    flush(output)?;
    Ok(status_of(verdict))
}

/// The line that shows the verdict on a series.
fn line_of(alloc: Global, verdict: SeriesVerdict) -> Result<String, AllocError>
    ensures { IfOk result (λ line. string_bytes line ≡ series_verdict_text verdict) }
{
    match verdict {
        SeriesVerdict::Fewest(rounds) => format!(in alloc; "yes {rounds}\n"),
        SeriesVerdict::No {
            record,
            row,
            reason,
        } => { format!(in alloc; "no {record} {row} {}\n", reason.name()) }
    }
}

/// The exit status that goes with the verdict on a series.
fn status_of(verdict: SeriesVerdict) -> u8
    ensures { result ≡ series_verdict_status verdict }
{
    match verdict {
        SeriesVerdict::Fewest(_) => DONE,
        SeriesVerdict::No { .. } => NOT_DONE,
    }
}
