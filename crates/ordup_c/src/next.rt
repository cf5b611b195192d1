//! The declarations of the successor, as text in a buffer.
ghost use Rattle.std.specs.Prelude.{◌≡◌, [], MatchResult};
ghost use Rattle.ordup_c.specs.Successors.{Declares, IsUndeclared, TellsNext};

use crate::record::copy_whole;
use crate::status::{DONE, NO_MEMORY, NOT_STARTED, NOT_YET};
use ordup_answers::ScriptEnd;
use ordup_objects::Refusal;
use ordup_succession::push_successor;
use ordup_text::TextBuffer;
use std::alloc::Global;

/// Tells the declarations of the successor: how long they are, and their text where it fits.
pub(crate) fn tell_next(alloc: Global, end: &ScriptEnd, out: &mut [u8], written: &mut usize) -> u32
    ensures { TellsNext end.now out.old out.new written.new result }
{
    let mut lines = TextBuffer::new(alloc);
    let status = match push_next(alloc, end, &mut lines) {
        Ok(()) => {
            *written = lines.len();
            copy_whole(lines.as_slice(), DONE, out)
        }
        Err(status) => {
            *written = 0;
            status
        }
    };
    drop(lines);
    status
}

/// Adds the declarations to a text that is empty, or answers the status that says why there are none.
fn push_next(alloc: Global, end: &ScriptEnd, lines: &mut TextBuffer) -> Result<(), u32>
    requires { lines.old.text ≡ [] }
    ensures { MatchResult result (λ _. Declares end.now lines.new.text) (λ status. IsUndeclared end.now status) }
{
    let ScriptEnd::Running(world) = end else {
        return Err(NOT_STARTED);
    };
    match push_successor(alloc, lines, world.primary()) {
        Ok(()) => Ok(()),
        Err(Refusal::NoMemory) => Err(NO_MEMORY),
        Err(_) => Err(NOT_YET),
    }
}
