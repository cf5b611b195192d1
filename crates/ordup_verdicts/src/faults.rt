//! The faults of records that are read and of a lag that is written, as those of a job.
ghost use Rattle.std.specs.Prelude.{◌≡◌};
ghost use Rattle.ordup_verdicts.specs.Faults.{fault_of_lag, fault_of_next, fault_of_reading, fault_of_series_reading};

use ordup_check::{RecordReadFault, SeriesReadFault};
use ordup_faults::Fault;
use ordup_lag::LagFault;

/// The fault of reading a record.
pub fn fault_of_reading(fault: RecordReadFault) -> Fault
    ensures { result ≡ fault_of_reading fault }
{
    match fault {
        RecordReadFault::Read => Fault::Read,
        RecordReadFault::Malformed { row } => Fault::Malformed { row },
        RecordReadFault::NoMemory => Fault::NoMemory,
    }
}

/// The fault of reading a series of records.
pub(crate) fn fault_of_series_reading(fault: SeriesReadFault) -> Fault
    ensures { result ≡ fault_of_series_reading fault }
{
    match fault {
        SeriesReadFault::Read => Fault::Read,
        SeriesReadFault::Malformed { record, row } => Fault::MalformedRecord { record, row },
        SeriesReadFault::NoMemory => Fault::NoMemory,
    }
}

/// The fault of reading the record at this place of a series, counted from 1.
pub(crate) fn fault_of_next(fault: RecordReadFault, place: u64) -> Fault
    ensures { result ≡ fault_of_next fault place }
{
    match fault {
        RecordReadFault::Read => Fault::Read,
        RecordReadFault::Malformed { row } => Fault::MalformedRecord { record: place, row },
        RecordReadFault::NoMemory => Fault::NoMemory,
    }
}

/// The fault of writing the lag of a record.
pub(crate) fn fault_of_lag(fault: LagFault) -> Fault
    ensures { result ≡ fault_of_lag fault }
{
    match fault {
        LagFault::Write => Fault::Write,
        LagFault::NoMemory => Fault::NoMemory,
    }
}
