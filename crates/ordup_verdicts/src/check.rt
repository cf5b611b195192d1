//! The job `check`.
ghost use Rattle.ordup_verdicts.specs.Verdicts.{Checks};

use crate::faults::fault_of_reading;
use crate::verdict::print_verdict;
use ordup_audit::check;
use ordup_check::read_record;
use ordup_faults::Outcome;
use std::alloc::Global;
use std::io::{Read, Write};

// promise Checks: `ordup check` prints the verdict on its record, or tells the first bad row
/// Checks a record and prints the verdict.
///
/// - Where it ends with a status or a write fault, the text is not too long, and it tells a record. The verdict on it was
///   printed, or a prefix of that line. The status is 0 for a valid record, and else 1.
/// - `Malformed`: the row is the first that breaks a rule. Nothing was written.
/// - `Read`, `NoMemory`: nothing was written.
pub fn check_record<R: Read, W: Write>(alloc: Global, input: &mut R, output: &mut W) -> Outcome
    ensures { Checks (R.remaining input.old) (W.contents output.old) (W.contents output.new) result }
{
    match read_record(alloc, input) {
        Ok(audited) => {
            let verdict = check(&audited);
            audited.discard();
            print_verdict(alloc, verdict, output)
        }
        Err(fault) => Err(fault_of_reading(fault)),
    }
}
