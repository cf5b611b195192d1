ghost use Rattle.std.specs.Prelude.{◌≡◌, ◌++◌, None, IfErr, IfOk};
ghost use Rattle.ordup_objects.specs.Refusals.{IsRefusal};
ghost use Rattle.ordup_primary.specs.Successors.{successor_refusal};
ghost use Rattle.ordup_succession.specs.Ends.{DeclaresSuccessor};

use crate::forming::push_declarations;
use crate::laws::declarations_read_back;
use ordup_objects::Refusal;
use ordup_primary::Primary;
use ordup_text::TextBuffer;
use std::alloc::Allocator;

// promise lines allowed refused: the lines of a successor read back; `NotYet` comes just while an update is not acknowledged
/// Adds the lines that declare the successor of a primary's store, and start it.
///
/// It is refused `NotYet` with the number of the last update while one is not acknowledged, and `NoMemory`. Then the text may have
/// some of the lines.
pub fn push_successor<A: Allocator + Copy>(
    alloc: A,
    out: &mut TextBuffer<A>,
    primary: &Primary<A>,
) -> Result<(), Refusal>
    ensures lines { IfOk result (λ _. DeclaresSuccessor A primary.now out.old.text out.new.text) }
    ensures allowed { IfOk result (λ _. successor_refusal primary.now ≡ None) }
    ensures refused { IfErr result (λ e. IsRefusal (successor_refusal primary.now) e) }
{
    let setup = primary.successor(alloc)?;
    declarations_read_back(&setup);
    let pushed = push_declarations(out, &setup);
    setup.discard();
    pushed?;
    Ok(())
}
