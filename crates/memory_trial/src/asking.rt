//! Calls that may be refused memory. Where one is, it is made a second time.
use ordup_objects::Refusal;
use std::io;

/// How often a call is made.
pub(crate) const TRIES: u64 = 2;

/// Why a trial ends early.
pub(crate) enum Stop {
    /// A call was refused memory each time.
    NoMemory,
    /// How a call ended cannot be printed.
    Unprinted,
}

impl From<io::Error> for Stop {
    fn from(_: io::Error) -> Self {
        Stop::Unprinted
    }
}

/// Makes a call, a second time where it is refused, and prints how it ended each time.
pub(crate) fn ask<T: Drop, F: Fn() -> Result<T, Refusal>>(
    rt: &impl Print,
    call: &str,
    make: F,
) -> Result<T, Stop>
    requires { F.IsAlwaysCallable make }
{
    for _ in 0..TRIES {
        match make() {
            Ok(made) => {
                println!(rt; "{call} ok")?;
                return Ok(made);
            }
            Err(refusal) => print_refused(rt, call, refusal)?,
        }
    }
    Err(Stop::NoMemory)
}

/// Prints that a call was refused.
pub(crate) fn print_refused(rt: &impl Print, call: &str, refusal: Refusal) -> io::Result<()> {
    println!(rt; "{call} refused {} {refusal}", refusal.number())
}
