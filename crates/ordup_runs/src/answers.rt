//! The job `run`.
ghost use Rattle.std.specs.Prelude.{◌≡◌};
ghost use Rattle.ordup_runs.specs.Answers.{Answers};

use crate::faults::fault_of_script;
use ordup_faults::{DONE, Outcome};
use ordup_script::run_script;
use std::alloc::Global;
use std::io::{Read, Write};

// promise Answers: `ordup run` runs the script over its input and output
/// Runs a script and prints its answers.
///
/// The script was run over these streams (`Runs`), and the outcome is that of its end: done, or its fault.
pub fn print_answers<R: Read, W: Write>(alloc: Global, input: &mut R, output: &mut W) -> Outcome
    ensures { Answers (record {
      had = R.remaining input.old;
      has = R.remaining input.new;
      old = W.contents output.old;
      new = W.contents output.new;
    }) result }
{
    match run_script(alloc, input, output) {
        Ok(end) => {
            end.discard();
            Ok(DONE)
        }
        Err(fault) => Err(fault_of_script(fault)),
    }
}
