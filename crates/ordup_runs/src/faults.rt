//! The faults of scripts and of records that are written, as those of a job.
ghost use Rattle.std.specs.Prelude.{◌≡◌};
ghost use Rattle.ordup_runs.specs.Faults.{fault_of_script, fault_of_writing};

use ordup_faults::Fault;
use ordup_rows::RecordWriteFault;
use ordup_script::ScriptFault;

/// The fault of a script.
pub fn fault_of_script(fault: ScriptFault) -> Fault
    ensures { result ≡ fault_of_script fault }
{
    match fault {
        ScriptFault::Read => Fault::Read,
        ScriptFault::TooLong => Fault::TooLong,
        ScriptFault::Write => Fault::Write,
        ScriptFault::NoMemory => Fault::NoMemory,
    }
}

/// The fault of writing a record.
pub(crate) fn fault_of_writing(fault: RecordWriteFault) -> Fault
    ensures { result ≡ fault_of_writing fault }
{
    match fault {
        RecordWriteFault::Write => Fault::Write,
        RecordWriteFault::NoMemory => Fault::NoMemory,
    }
}
