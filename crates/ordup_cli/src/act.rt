ghost use Rattle.std.specs.Prelude.{◌≡◌};
ghost use Rattle.ordup_cli.specs.Acts.{Acts, IsTold, IsUsage};
ghost use Rattle.ordup_faults.specs.Faults.{status_of};

use crate::jobs::do_job;
use clap::Error;
use clap::error::ErrorKind;
use ordup_command_line::{FILE_TIP, job_of};
use ordup_faults::{DONE, Fault, Outcome, WRONG_WORDS, tell};
use std::alloc::Global;
use std::io::{Read, Write};
use std::sync::Wait;
use std::thread::Threads;

// promise Acts: the program does a job and tells how it ended; wrong words print nothing
// promise RunsPlan: `ordup threads` prints the outcome of the plan
// promise IsTold: a fault has its status, and its line is written
// promise Answers: as print_answers
// promise AnswersExplained: as print_answers_explained
// promise AnswersStrictly: as print_answers_strictly
// promise Records: as print_record
// promise Checks: as check_record
// promise Lags: as print_lag
// promise ChecksSeries: as check_series
// promise ChecksSites: as check_sites
// promise LagsOfSeries: as print_lag_of_series
// promise DeclaresSuccessor: as print_next
// promise DeclaresEnd: as print_next_of_record
/// Does what the words ask for, and answers the exit status. The first word is the program's name.
///
/// Either one of the jobs was done over the input and the output: then nothing but the line of its fault, or a prefix of that
/// line, was written to `faults`, behind the notes where it is `run --explain`, and the status is that of how the job ended. Or no job was done and nothing was read: the help
/// or the version was printed, or the words were wrong or there was no memory to look at them, and then nothing was printed.
pub fn act<T: Threads + Wait + Sync, R: Read, W: Write, E: Write>(
    rt: &T,
    alloc: Global,
    words: &[&str],
    input: &mut R,
    output: &mut W,
    faults: &mut E,
) -> u8
    ensures { Acts (record {
      had = R.remaining input.old;
      has = R.remaining input.new;
      old = W.contents output.old;
      new = W.contents output.new;
    }) (E.contents faults.old) (E.contents faults.new) result }
{
    match job_of(alloc, words) {
        Ok(Some(job)) => {
            let outcome = do_job(rt, alloc, &job, input, output, faults);
            end(outcome, faults)
        },
        Ok(None) => WRONG_WORDS,
        Err(error) => {
            let status = show_usage(output, faults, &error);
            drop(error);
            status
        }
    }
}

/// Ends the program after a job: answers the exit status, and tells the fault if there is one.
fn end<E: Write>(outcome: Outcome, faults: &mut E) -> u8
    ensures status { result ≡ status_of outcome }
    ensures told { IsTold (E.contents faults.old) (E.contents faults.new) outcome }
{
    match outcome {
        Ok(status) => status,
        Err(fault) => tell(faults, fault),
    }
}

/// Shows the help or the version where the words ask for it, or says what is wrong with the words.
fn show_usage<W: Write, E: Write>(output: &mut W, faults: &mut E, error: &Error) -> u8
    ensures { IsUsage (W.contents output.old) (W.contents output.new) result }
{
    if error.kind() == ErrorKind::OutOfMemory {
        return tell(faults, Fault::NoMemory);
    }
    if !error.use_stderr() {
        let shown = write!(output, "{error}").is_ok() && output.flush().is_ok();
        return if shown {
            DONE
        } else {
            tell(faults, Fault::Write)
        };
    }
    let _ = write!(faults, "{error}");
    if error.kind() == ErrorKind::UnknownArgument {
        let _ = faults.write_all(FILE_TIP.as_bytes());
    }
    WRONG_WORDS
}
