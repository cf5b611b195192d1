//! Bytes to a writer.
ghost use Rattle.std.specs.Prelude.{OnOk};
ghost use Rattle.std.specs.Io.KnownBytes.{Appends};
ghost use Rattle.ordup_text.specs.Fronts.{AppendsFront};

use std::io::Write;

/// A write failed, or took nothing.
#[derive(Clone, Copy, Debug, PartialEq, Eq)]
pub struct WriteFault;

// promise sent front: all bytes were written, or a prefix until the writer failed
/// Writes all bytes. Where the writer fails it has written a prefix of them. It does not flush.
pub fn send<W: Write>(output: &mut W, bytes: &[u8]) -> Result<(), WriteFault>
    ensures sent { OnOk result (Appends (W.contents output.old) (W.contents output.new) bytes.now) }
    ensures front { AppendsFront (W.contents output.old) (W.contents output.new) bytes.now }
{
    let mut rest = bytes;
    while !rest.is_empty() {
        match output.write(rest) {
            Ok(count) if count > 0 => rest = &rest[count..],
            _ => return Err(WriteFault),
        }
    }
    Ok(())
}
