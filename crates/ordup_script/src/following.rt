//! Runs a script for what it leaves: its lines come from a reader, and no answers are formed.
ghost use Rattle.std.specs.Prelude.{◌≡◌, ◌+◌, [], None, IfErr};
ghost use Rattle.ordup_script.specs.Followers.{HasFollowed};
ghost use Rattle.ordup_script.specs.Runs.{Runs, RunsIn};
ghost use Rattle.ordup_script.specs.Streams.{most_counted};

use crate::line_reader::{Extent, LineTaker, read_lines};
use crate::sizes::MOST_SCRIPT_BYTES;
use crate::stream::ScriptFault;
use ordup_answers::{Answering, ScriptEnd, Unanswered};
use ordup_grammar::LinePart;
use ordup_objects::or_give_up;
use std::alloc::{AllocError, Allocator, Global};
use std::io::Read;

/// Where a script stands after some of its lines.
#[derive(Drop)]
struct Follower<A: Allocator + Copy = Global> {
    alloc: A,
    script: Answering<A>,
}

impl<A: Allocator + Copy> LineTaker for Follower<A> {
    type Fault = AllocError;

    ghost took = { λ first now lines. HasFollowed now lines };

    // An allocation was refused. What is left then is given up.
    ghost stopped = { λ first now lines fault. Unit {0} };

    ghost is_clear = { λ follower. Unit {0} };

    // One more than any limit.
    ghost lines_left = { λ _. most_counted + 1 };

    #[inline(always)]
    fn take(&mut self, line: &LinePart<'_>) -> Result<(), AllocError> {
        self.script.answer(self.alloc, line, &mut Unanswered)
    }

    fn hand_out(&mut self) -> Result<(), AllocError> {
        Ok(())
    }
}

/// Follows the lines of a script of at most `limit` bytes, of which none was followed yet.
fn follow_lines<A: Allocator + Copy, R: Read>(
    follower: &mut Follower<A>,
    input: &mut R,
    limit: u64,
) -> Result<(), ScriptFault>
    requires { HasFollowed follower.old [] }
    ensures runs { RunsIn (record {
      had = R.remaining input.old;
      has = R.remaining input.new;
      old = None;
      new = None;
    }) limit follower.new.script result }
    ensures fault { IfErr result (λ e. e ≡ ScriptFault.Write → ⊥) }
{
    match read_lines(follower, input, limit) {
        Ok(Extent::Whole) => Ok(()),
        Ok(Extent::BeforeFailure) => Err(ScriptFault::Read),
        Ok(Extent::UpToLimit) => Err(ScriptFault::TooLong),
        Err(_) => Err(ScriptFault::NoMemory),
    }
}

// promise runs fault: `follow_script` ends as a run over some writer, never with a write fault
/// Runs a script and writes no answers.
///
/// It ends as `run_script` does over a writer that takes everything, and so never with `Write`.
pub fn follow_script<A: Allocator + Copy, R: Read>(
    alloc: A,
    input: &mut R,
) -> Result<ScriptEnd<A>, ScriptFault>
    ensures runs { Runs (record {
      had = R.remaining input.old;
      has = R.remaining input.new;
      old = None;
      new = None;
    }) MOST_SCRIPT_BYTES result }
    ensures fault { IfErr result (λ e. e ≡ ScriptFault.Write → ⊥) }
{
    let mut follower = Follower {
        alloc,
        script: Answering::new(alloc),
    };
    let followed = follow_lines(&mut follower, input, MOST_SCRIPT_BYTES);
    let end = follower.script.into_end();
    or_give_up!(followed, end);
    Ok(end)
}
