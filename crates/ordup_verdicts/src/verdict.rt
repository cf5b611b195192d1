//! The line of a verdict, and the exit status that goes with it.
ghost use Rattle.std.specs.Prelude.{◌≡◌, IfOk, string_bytes};
ghost use Rattle.ordup_verdicts.specs.Verdicts.{PrintsVerdict, verdict_status, verdict_text};

use ordup_audit::Verdict;
use ordup_faults::{DONE, Fault, NOT_DONE, Outcome, flush};
use ordup_text::send;
use std::alloc::{AllocError, Global};
use std::io::Write;

/// Prints the line of a verdict, and answers the exit status that goes with it.
pub fn print_verdict<W: Write>(alloc: Global, verdict: Verdict, output: &mut W) -> Outcome
    ensures { PrintsVerdict verdict (W.contents output.old) (W.contents output.new) result }
{
    let Ok(line) = line_of(alloc, verdict) else {
        return Err(Fault::NoMemory);
    };
    let Ok(()) = send(output, line.as_bytes()) else {
        return Err(Fault::Write);
    };
    flush(output)?;
    Ok(status_of(verdict))
}

/// The line that shows a verdict.
fn line_of(alloc: Global, verdict: Verdict) -> Result<String, AllocError>
    ensures { IfOk result (λ line. string_bytes line ≡ verdict_text verdict) }
{
    match verdict {
        Verdict::Fewest(rounds) => format!(in alloc; "yes {rounds}\n"),
        Verdict::No { row, reason } => format!(in alloc; "no {row} {}\n", reason.name()),
    }
}

/// The exit status that goes with a verdict.
fn status_of(verdict: Verdict) -> u8
    ensures { result ≡ verdict_status verdict }
{
    match verdict {
        Verdict::Fewest(_) => DONE,
        Verdict::No { .. } => NOT_DONE,
    }
}
