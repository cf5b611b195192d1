//! The jobs of the program, each by the crate that does it.
ghost use Rattle.std.specs.Prelude.{string_bytes};
ghost use Rattle.ordup_cli.specs.Jobs.{Does};

use crate::plans::run_plan;
use ordup_command_line::Job;
use ordup_faults::Outcome;
use ordup_next::{print_next, print_next_of_record};
use ordup_runs::{print_answers, print_answers_explained, print_answers_strictly, print_record};
use ordup_verdicts::{check_record, check_series, check_sites, print_lag, print_lag_of_series};
use std::alloc::Global;
use std::io::{Read, Write};
use std::sync::Wait;
use std::thread::Threads;

/// Does a job: reads the input, and prints on the output what comes of it. Only `run --explain` writes to `faults`.
pub(crate) fn do_job<T: Threads + Wait + Sync, R: Read, W: Write, E: Write>(
    rt: &T,
    alloc: Global,
    job: &Job,
    input: &mut R,
    output: &mut W,
    faults: &mut E,
) -> Outcome
    ensures { Does job.now (record {
      had = R.remaining input.old;
      has = R.remaining input.new;
      old = W.contents output.old;
      new = W.contents output.new;
    }) (E.contents faults.old) (E.contents faults.new) result }
{
    match job {
        Job::Run => print_answers(alloc, input, output),
        Job::RunStrictly => print_answers_strictly(alloc, input, output),
        Job::RunExplained { strictly } => {
            print_answers_explained(alloc, *strictly, input, output, faults)
        }
        Job::Record { site } => print_record(alloc, site.as_bytes(), input, output),
        Job::Check => check_record(alloc, input, output),
        Job::CheckSeries => check_series(alloc, input, output),
        Job::CheckSites => check_sites(alloc, input, output),
        Job::Lag => print_lag(alloc, input, output),
        Job::LagSeries => print_lag_of_series(alloc, input, output),
        Job::Next => print_next(alloc, input, output),
        Job::NextOfRecord => print_next_of_record(alloc, input, output),
        Job::Threads { callers } => run_plan(rt, alloc, *callers, input, output),
    }
}
