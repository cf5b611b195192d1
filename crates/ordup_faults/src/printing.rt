//! Prints on the output.
ghost use Rattle.std.specs.Prelude.{◌≡◌, IfErr};
ghost use Rattle.std.specs.Io.KnownBytes.{Keeps};
ghost use Rattle.ordup_faults.specs.Printing.{Prints};

use crate::fault::{Fault, Outcome};
use crate::status::DONE;
use ordup_text::send;
use std::io::Write;

/// Prints a text: all of it, or a prefix of it where the writer fails.
pub fn print<W: Write>(text: &[u8], output: &mut W) -> Outcome
    ensures { Prints 0 text.now (W.contents output.old) (W.contents output.new) result }
{
    let Ok(()) = send(output, text) else {
        return Err(Fault::Write);
    };
    flush(output)?;
    Ok(DONE)
}

/// Flushes what was printed.
pub fn flush<W: Write>(output: &mut W) -> Result<(), Fault>
    ensures kept { Keeps (W.contents output.old) (W.contents output.new) }
    ensures fault { IfErr result (λ e. e ≡ Fault.Write) }
{
    match output.flush() {
        Ok(()) => Ok(()),
        Err(_) => Err(Fault::Write),
    }
}
