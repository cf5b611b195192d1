//! Why a job was not done, its line of text and its exit status.
ghost use Rattle.std.specs.Prelude.{◌≡◌, ◌++◌, codes};
ghost use Rattle.std.specs.Fmt.{decimal};
ghost use Rattle.ordup_text.specs.Fronts.{AppendsFront};
ghost use Rattle.ordup_faults.specs.Faults.{fault_status, fault_text};

use crate::status::{INPUT_OR_OUTPUT_FAILED, NO_MEMORY, NOT_DONE, WRONG_WORDS};
use itoa::Buffer;
use ordup_text::{WriteFault, send};
use std::io::Write;

/// Why a job was not done.
#[derive(Clone, Copy)]
pub enum Fault {
    /// A read failed, or a record has more bytes than it may.
    Read,
    /// A script has more bytes than it may.
    TooLong,
    /// A write or a flush failed, or a write took nothing.
    Write,
    /// This row of a record, or this line of a plan, is the first that breaks a rule of the format.
    Malformed { row: u64 },
    /// This row of this record of a series is the first that breaks a rule of the format.
    MalformedRecord { record: u64, row: u64 },
    /// The script did not start its store.
    NotStarted,
    /// The store has no such site.
    UnknownSite,
    /// An update is not acknowledged yet. This is the number of the last one.
    NotYet { number: u64 },
    /// A site does not agree with the log.
    Mixed,
    /// An allocation was refused.
    NoMemory,
}

/// How a job ended: with an exit status, or with a fault.
pub type Outcome = Result<u8, Fault>;

impl Fault {
    /// The exit status that tells it.
    fn status(self) -> u8
        ensures { result ≡ fault_status self }
    {
        match self {
            Fault::Read => INPUT_OR_OUTPUT_FAILED,
            Fault::TooLong => INPUT_OR_OUTPUT_FAILED,
            Fault::Write => INPUT_OR_OUTPUT_FAILED,
            Fault::Malformed { .. } => INPUT_OR_OUTPUT_FAILED,
            Fault::MalformedRecord { .. } => INPUT_OR_OUTPUT_FAILED,
            Fault::NotStarted => INPUT_OR_OUTPUT_FAILED,
            Fault::UnknownSite => WRONG_WORDS,
            Fault::NotYet { .. } => NOT_DONE,
            Fault::Mixed => NOT_DONE,
            Fault::NoMemory => NO_MEMORY,
        }
    }
}

// promise status text: as act IsTold
/// Tells a fault: answers its exit status, and writes its line, or a prefix of it where the writer fails.
pub fn tell<E: Write>(faults: &mut E, fault: Fault) -> u8
    ensures status { result ≡ fault_status fault }
    ensures text { AppendsFront (E.contents faults.old) (E.contents faults.new) (fault_text fault) }
{
    let _ = send_line(faults, fault);
    fault.status()
}

/// Sends the line that tells a fault.
fn send_line<E: Write>(faults: &mut E, fault: Fault) -> Result<(), WriteFault>
    ensures { AppendsFront (E.contents faults.old) (E.contents faults.new) (fault_text fault) }
{
    match fault {
        Fault::Read => send(faults, b"read fault\n"),
        Fault::TooLong => send(faults, b"input too long\n"),
        Fault::Write => send(faults, b"write fault\n"),
        Fault::Malformed { row } => send_numbered(faults, b"malformed ", row),
        Fault::MalformedRecord { record, row } => send_row_of_series(faults, record, row),
        Fault::NotStarted => send(faults, b"refused 2 NotStarted\n"),
        Fault::UnknownSite => send(faults, b"refused 8 UnknownSite\n"),
        Fault::NotYet { number } => send_numbered(faults, b"refused 22 NotYet ", number),
        Fault::Mixed => send(faults, b"refused 27 Mixed\n"),
        Fault::NoMemory => send(faults, b"no memory\n"),
    }
}

/// Sends the line that tells the place of a record in its series, and a row of it.
fn send_row_of_series<E: Write>(faults: &mut E, place: u64, row: u64) -> Result<(), WriteFault>
    ensures { AppendsFront (E.contents faults.old) (E.contents faults.new) (codes "malformed " ++ (decimal place ++ (codes " " ++ (decimal row ++ codes "\n")))) }
{
    send(faults, b"malformed ")?;
    send(faults, Buffer::new().format(place).as_bytes())?;
    send_numbered(faults, b" ", row)
}

/// Sends a line of a text and a number.
fn send_numbered<E: Write>(faults: &mut E, text: &[u8], number: u64) -> Result<(), WriteFault>
    ensures { AppendsFront (E.contents faults.old) (E.contents faults.new) (text.now ++ (decimal number ++ codes "\n")) }
{
    send(faults, text)?;
    send(faults, Buffer::new().format(number).as_bytes())?;
    send(faults, b"\n")
}
