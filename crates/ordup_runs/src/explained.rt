//! The jobs `run --explain` and `run --strict`.
ghost use Rattle.std.specs.Prelude.{◌≡◌, ◌&&◌, if◌then◌else◌};
ghost use Rattle.ordup_runs.specs.Explained.{AnswersExplained, AnswersStrictly};

use crate::faults::fault_of_script;
use ordup_faults::{DONE, NOT_DONE, Outcome};
use ordup_script::run_script_explained;
use std::alloc::Global;
use std::io::{self, Read, Write};

// promise AnswersExplained: `ordup run --explain` answers as `run` does, and notes each refused line, in order, on standard error
/// Runs a script, prints its answers, and writes to `faults` a note on each line that was refused.
///
/// The script was run over these streams (`Runs`), the notes are those of `run_script_explained` (`Explains`), and the outcome is that of
/// the run's end: its fault, or done. If refusals count, `strictly`, the status is 1 where a line was refused.
pub fn print_answers_explained<R: Read, W: Write, E: Write>(
    alloc: Global,
    strictly: bool,
    input: &mut R,
    output: &mut W,
    faults: &mut E,
) -> Outcome
    ensures { AnswersExplained strictly (record {
      had = R.remaining input.old;
      has = R.remaining input.new;
      old = W.contents output.old;
      new = W.contents output.new;
    }) (E.contents faults.old) (E.contents faults.new) result }
{
    match run_script_explained(alloc, input, output, faults) {
        Ok((end, is_refused)) => {
            end.discard();
            Ok(status_of(strictly, is_refused))
        }
        Err(fault) => Err(fault_of_script(fault)),
    }
}

/// The exit status of a run, by whether refusals count and whether a line was refused.
fn status_of(strictly: bool, is_refused: bool) -> u8
    ensures { result ≡ (if strictly && is_refused then 1 else 0) }
{
    if strictly && is_refused {
        NOT_DONE
    } else {
        DONE
    }
}

// promise AnswersStrictly: `ordup run --strict` answers as `run` does, and ends with 1 exactly where a line was refused
/// Runs a script and prints its answers. The status is 1 where a line was refused.
pub fn print_answers_strictly<R: Read, W: Write>(
    alloc: Global,
    input: &mut R,
    output: &mut W,
) -> Outcome
    ensures { AnswersStrictly (record {
      had = R.remaining input.old;
      has = R.remaining input.new;
      old = W.contents output.old;
      new = W.contents output.new;
    }) result }
{
    let mut nowhere = io::sink();
    print_answers_explained(alloc, true, input, output, &mut nowhere)
}
