//! A store of a group, made line by line.
use crate::marked_lines::MarkedLine;
use crate::scarce::Heap;
use ordup_answers::{Answering, ScriptEnd, Unanswered};
use ordup_grammar::LinePart;
use ordup_objects::Refusal;
use ordup_world::World;
use std::alloc::AllocError;

/// A group, of which 6 is allowed: 3 + 3 is not over it, and 6 + 1 is. Once that is reported, 4 + 3 is over it again.
pub const GROUPED: &str = "\
>+ object x 0
ok object x
>? object y 10
ok object y
>+ group g x y
ok group g
>+ site a 4
ok site a
>? site b 4
ok site b
>+ limit a group g 6
ok limit a
>+ limit b all 100
ok limit b
>+ start
ok start
>+ propose add:x:3 add:y:3
ok proposed 1
>- settle
ok acked 1
>? propose add:y:1
ok proposed 2
>+ settle
ok round 2 a
>- send a
ok sent a 1
>- send a
ok sent a 2
>- apply a
ok applied a 1
>- apply a
ok applied a 2
>- report a
ok reported a 2
>- settle
ok acked 2
>+ propose add:x:4 add:y:3
ok proposed 3
>? settle
ok round 3 a
>- certify a
ok certified a 2 0-2 2-3
>- certify b
ok certified b 0
";

/// Answers each line of `GROUPED`.
fn answer_all<'a>(heap: Heap<'a>, script: &mut Answering<Heap<'a>>) -> Result<(), AllocError> {
    for text in GROUPED.split('>') {
        if let Some(marked) = MarkedLine::parse(text) {
            script.answer(
                heap,
                &LinePart::new(marked.line.as_bytes()),
                &mut Unanswered,
            )?;
        }
    }
    Ok(())
}

/// The store after the lines of `GROUPED`.
pub fn grouped<'a>(heap: Heap<'a>) -> Result<World<Heap<'a>>, Refusal> {
    let mut script = Answering::new(heap);
    let answered = answer_all(heap, &mut script);
    match script.into_end() {
        ScriptEnd::Running(world) => match answered {
            Ok(()) => Ok(world),
            Err(_) => {
                world.discard();
                Err(Refusal::NoMemory)
            }
        },
        ScriptEnd::Declared(setup) => {
            setup.discard();
            Err(Refusal::NotStarted)
        }
    }
}
