//! The job of running a plan in threads.
ghost use Rattle.std.specs.Prelude.{◌≡◌};
ghost use Rattle.ordup_cli.specs.Plans.{RunsPlan, fault_of, fault_of_plan};

use ordup_faults::{Fault, Outcome, print};
use ordup_objects::Refusal;
use ordup_plan::run_threads;
use ordup_script::{Plan, PlanFault, read_plan};
use std::alloc::Global;
use std::io::{Read, Write};
use std::num::NonZeroU8;
use std::sync::Wait;
use std::thread::Threads;

/// Runs a plan by this many callers, and prints what came of it.
///
/// A plan was read from this reader (`ReadsPlan`), and the text that was printed is an outcome of a store of its declarations, and of
/// as many sets as it has. Where no plan was read, or its run has no outcome, nothing was written, and the fault says why.
pub(crate) fn run_plan<T: Threads + Wait + Sync, R: Read, W: Write>(
    rt: &T,
    alloc: Global,
    callers: NonZeroU8,
    input: &mut R,
    output: &mut W,
) -> Outcome
    ensures { RunsPlan (record {
      had = R.remaining input.old;
      has = R.remaining input.new;
      old = W.contents output.old;
      new = W.contents output.new;
    }) result }
{
    let Plan { setup, sets } = match read_plan(alloc, input) {
        Ok(plan) => plan,
        Err(fault) => return Err(fault_of_plan(fault)),
    };
    match run_threads(rt, alloc, setup, sets, callers) {
        Ok(text) => print(text.as_slice(), output),
        Err(refusal) => Err(fault_of(refusal)),
    }
}

/// The fault of reading a plan.
fn fault_of_plan(fault: PlanFault) -> Fault
    ensures { result ≡ fault_of_plan fault }
{
    match fault {
        PlanFault::Read => Fault::Read,
        PlanFault::TooLong => Fault::TooLong,
        PlanFault::Malformed { line } => Fault::Malformed { row: line },
        PlanFault::NoMemory => Fault::NoMemory,
    }
}

// promise: as act RunsPlan
/// Why the run of a plan has no outcome.
fn fault_of(refusal: Refusal) -> Fault
    ensures { result ≡ fault_of refusal }
{
    match refusal {
        Refusal::NoMemory => Fault::NoMemory,
        _ => Fault::Mixed,
    }
}
