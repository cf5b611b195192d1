//! What the program promises of a call of its own, with the same clauses: the prover refuses it where the call promises less.
ghost use Rattle.ordup_cli.specs.Acts.{Acts};

use std::alloc::Global;
use std::io::{Read, Write};
use std::sync::Wait;
use std::thread::Threads;

/// Acts on the words, as [`act`](crate::act) does.
pub(crate) fn act<T: Threads + Wait + Sync, R: Read, W: Write, E: Write>(
    rt: &T,
    alloc: Global,
    words: &[&str],
    input: &mut R,
    output: &mut W,
    faults: &mut E,
) -> u8
    ensures { Acts (record {
      had = R.remaining input.old;
      has = R.remaining input.new;
      old = W.contents output.old;
      new = W.contents output.new;
    }) (E.contents faults.old) (E.contents faults.new) result }
{
    crate::act(rt, alloc, words, input, output, faults)
}
