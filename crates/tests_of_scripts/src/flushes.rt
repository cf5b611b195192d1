//! Scripts, verdicts and lags whose writer has a buffer: what is out once they end, and flushes that fail.
use ordup_faults::{DONE, Fault, NOT_DONE, Outcome};
use ordup_script::{ScriptFault, run_script};
use ordup_verdicts::{check_record, check_series, print_lag, print_lag_of_series};
use std::alloc::Global;
use std::io::{self, ErrorKind, Write};
use test_fixtures::expect;

/// Takes a few bytes a call, and keeps them in a buffer until it is flushed. Its flush may fail.
#[derive(Drop)]
struct BufferedWriter {
    taken: Vec<u8>,
    /// How many of these bytes are out of the buffer.
    out: usize,
    failure: Option<ErrorKind>,
}

impl Write for BufferedWriter {
    fn write(&mut self, bytes: &[u8]) -> io::Result<usize> {
        let count = bytes.len().min(5);
        self.taken.extend_from_slice(&bytes[..count])?;
        Ok(count)
    }

    fn flush(&mut self) -> io::Result<()> {
        if let Some(kind) = self.failure {
            return Err(io::Error::from(kind));
        }
        self.out = self.taken.len();
        Ok(())
    }
}

/// What is printed of a text.
#[derive(Clone, Copy, Debug)]
enum Job {
    Answers,
    Verdict,
    VerdictOnSeries,
    Lag,
    LagOfSeries,
}

/// An update that weighs 3, over a limit of 2, and its round.
const RECORD: &str = "\
ordup,1,a,1
object,1,x,0
limit,1,all,2
change,1,1,add:x:3
round,1,1,-
window,1,0,1
";

const LAG: &str = "\
place,reported,weight all,amount all,round,window
1,0,3,2,1,1
";

/// The same without the round.
const BROKEN: &str = "\
ordup,1,a,1
object,1,x,0
limit,1,all,2
change,1,1,add:x:3
";

/// Jobs, the text of each, what is printed of it, and the exit status.
const PRINTED: [(Job, &str, &str, u8); 9] = [
    (
        Job::Answers,
        "object x 0\nsite a 4\n",
        "ok object x\nok site a\n",
        DONE,
    ),
    (Job::Verdict, RECORD, "yes 1\n", DONE),
    (Job::Verdict, BROKEN, "no 4 LimitsBroken\n", NOT_DONE),
    (Job::VerdictOnSeries, RECORD, "yes 1\n", DONE),
    (
        Job::VerdictOnSeries,
        BROKEN,
        "no 1 4 LimitsBroken\n",
        NOT_DONE,
    ),
    (Job::Lag, RECORD, LAG, DONE),
    (Job::Lag, BROKEN, "no 4 LimitsBroken\n", NOT_DONE),
    (Job::LagOfSeries, RECORD, LAG, DONE),
    (Job::LagOfSeries, BROKEN, "no 1 4 LimitsBroken\n", NOT_DONE),
];

/// Prints the answers to a script. A fault that is none of writing is told as one of reading.
fn print_answers(alloc: Global, script: &str, output: &mut BufferedWriter) -> Outcome {
    match run_script(alloc, &mut script.as_bytes(), output).err() {
        None => Ok(DONE),
        Some(ScriptFault::Write) => Err(Fault::Write),
        Some(_) => Err(Fault::Read),
    }
}

/// A writer with what a job printed, and how the job ended.
fn print(
    alloc: Global,
    job: Job,
    text: &str,
    failure: Option<ErrorKind>,
) -> (BufferedWriter, Outcome) {
    let mut output = BufferedWriter {
        taken: Vec::new(alloc),
        out: 0,
        failure,
    };
    let mut input = text.as_bytes();
    let outcome = match job {
        Job::Answers => print_answers(alloc, text, &mut output),
        Job::Verdict => check_record(alloc, &mut input, &mut output),
        Job::VerdictOnSeries => check_series(alloc, &mut input, &mut output),
        Job::Lag => print_lag(alloc, &mut input, &mut output),
        Job::LagOfSeries => print_lag_of_series(alloc, &mut input, &mut output),
    };
    (output, outcome)
}

/// Prints to a writer that can be flushed.
// shows: streams
#[test]
fn a_script_a_verdict_and_a_lag_end_with_a_flush(rt: HostRuntime) {
    for &(job, text, printed, status) in &PRINTED {
        let (output, outcome) = print(rt.alloc(), job, text, None);
        let is_written = output.taken.as_slice() == printed.as_bytes();
        expect!(&rt; is_written && outcome.ok() == Some(status), (job, text));
        expect!(&rt; output.out == printed.len(), (job, text));
    }
}

/// Prints to a writer that cannot be flushed.
// shows: run_script Runs.Write; streams
#[test]
fn a_flush_that_fails_is_a_write_fault_after_all_is_written(rt: HostRuntime) {
    for kind in [ErrorKind::Other, ErrorKind::Interrupted] {
        for &(job, text, printed, _) in &PRINTED {
            let (output, outcome) = print(rt.alloc(), job, text, Some(kind));
            let is_written = output.taken.as_slice() == printed.as_bytes();
            expect!(&rt; is_written && matches!(outcome, Err(Fault::Write)), (job, text));
        }
    }
}
