//! The job `next`.
ghost use Rattle.std.specs.Prelude.{◌≡◌};
ghost use Rattle.ordup_next.specs.Successors.{DeclaresSuccessor, PrintsSuccessor, fault_of_successor};

use ordup_faults::{Fault, Outcome, print};
use ordup_objects::Refusal;
use ordup_primary::Primary;
use ordup_runs::fault_of_script;
use ordup_script::{ScriptEnd, follow_script};
use ordup_succession::push_successor;
use ordup_text::TextBuffer;
use std::alloc::Global;
use std::io::{Read, Write};

// promise DeclaresSuccessor: `ordup next` prints the lines of the successor
/// Runs a script and prints the declarations of the successor of its store, in place of the answers.
///
/// The script was run from this reader, and no answer was formed. Then the declarations were printed. Where the run failed, no store
/// started, or an update is not acknowledged, nothing was written, and the outcome says so.
pub fn print_next<R: Read, W: Write>(alloc: Global, input: &mut R, output: &mut W) -> Outcome
    ensures { DeclaresSuccessor (record {
      had = R.remaining input.old;
      has = R.remaining input.new;
      old = W.contents output.old;
      new = W.contents output.new;
    }) result }
{
    match follow_script(alloc, input) {
        Ok(ScriptEnd::Running(world)) => {
            let printed = print_successor(alloc, world.primary(), output);
            world.discard();
            printed
        }
        Ok(ScriptEnd::Declared(setup)) => {
            setup.discard();
            Err(Fault::NotStarted)
        }
        Err(fault) => Err(fault_of_script(fault)),
    }
}

/// Prints the declarations of the successor of a primary's store. Where it has none, nothing is written.
fn print_successor<W: Write>(alloc: Global, primary: &Primary, output: &mut W) -> Outcome
    ensures { PrintsSuccessor primary.now (W.contents output.old) (W.contents output.new) result }
{
    let mut lines = TextBuffer::new(alloc);
    let printed = match push_successor(alloc, &mut lines, primary) {
        Ok(()) => print(lines.as_slice(), output),
        Err(refusal) => Err(fault_of_successor(refusal)),
    };
    drop(lines);
    printed
}

/// The fault of a store that has no successor.
fn fault_of_successor(refusal: Refusal) -> Fault
    ensures { result ≡ fault_of_successor refusal }
{
    match refusal {
        Refusal::NotYet { number } => Fault::NotYet { number },
        _ => Fault::NoMemory,
    }
}
