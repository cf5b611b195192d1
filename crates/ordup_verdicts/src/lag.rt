//! The job `lag`.
ghost use Rattle.ordup_audit.specs.Validity.{IsValid};
ghost use Rattle.ordup_audit.specs.Verdicts.{IfFewest};
ghost use Rattle.ordup_verdicts.specs.Lags.{Lags, PrintsLag, PrintsLagText};

use crate::faults::{fault_of_lag, fault_of_reading};
use crate::verdict::print_verdict;
use ordup_audit::{Record, Verdict, check};
use ordup_check::read_record;
use ordup_faults::{DONE, Outcome, flush};
use ordup_lag::{Offsets, write_lag};
use std::alloc::Global;
use std::io::{Read, Write};

// promise Lags: `ordup lag` prints the lag of a valid record; else it does as `ordup check`
/// Reads a record and prints its lag, or the verdict on it where it is not valid.
///
/// - Where it ends with a status or a write fault, the text is not too long, and it tells a record. The lag of a valid record
///   was printed, or a prefix of it; of any other record the verdict was, or a prefix of that line. The status is 0 for a valid
///   record, and else 1.
/// - `Malformed`: the row is the first that breaks a rule. Nothing was written.
/// - `Read`, `NoMemory`: nothing was written.
pub fn print_lag<R: Read, W: Write>(alloc: Global, input: &mut R, output: &mut W) -> Outcome
    ensures { Lags (R.remaining input.old) (W.contents output.old) (W.contents output.new) result }
{
    match read_record(alloc, input) {
        Ok(audited) => {
            let verdict = check(&audited);
            let printed = print_judged(alloc, &audited, verdict, output);
            audited.discard();
            printed
        }
        Err(fault) => Err(fault_of_reading(fault)),
    }
}

/// Prints the lag of a record that this verdict calls valid, and else the verdict.
fn print_judged<W: Write>(
    alloc: Global,
    audited: &Record,
    verdict: Verdict,
    output: &mut W,
) -> Outcome
    requires { IfFewest verdict (λ n. IsValid audited.now) }
    ensures { PrintsLag audited.now verdict (W.contents output.old) (W.contents output.new) result }
{
    match verdict {
        Verdict::Fewest(_) => print_rows(alloc, audited, output),
        Verdict::No { .. } => print_verdict(alloc, verdict, output),
    }
}

/// Prints the lag of a valid record: all of it, or a prefix of it where the writer fails, or nothing for want of memory.
fn print_rows<W: Write>(alloc: Global, audited: &Record, output: &mut W) -> Outcome
    requires { IsValid audited.now }
    ensures { PrintsLagText audited.now (W.contents output.old) (W.contents output.new) result }
{
    if let Err(fault) = write_lag(alloc, audited, Offsets::NONE, output) {
        return Err(fault_of_lag(fault));
    }
    flush(output)?;
    Ok(DONE)
}
