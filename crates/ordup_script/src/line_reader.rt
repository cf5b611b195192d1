//! Reads the lines of a script, and gives each of them to a taker. Scripts and plans are read by this one loop.
//!
//! It is fast by these means:
//!
//! - **A piece on the stack.** The input is read into one array of 65,536 bytes. So reading takes no memory, however long the
//!   script is, and one read gives some thousands of lines.
//! - **A line is taken where it lies.** `split_line` cuts it off the front of the piece, and copies nothing. One pass over the
//!   line, sixteen bytes at a time, finds its end and tells whether all of its bytes are printed. `memchr` looks for the end only
//!   where one of them is not.
//! - **Only what a piece leaves unended is held.** It is copied into a `LineBuffer`, which holds the 4,096 bytes that a line may
//!   have. So a line that is too long takes no memory either.
//! - **A taker is given the line where it lies**, and may know it by its bytes. The taking is inlined into the loop, so that words
//!   are not moved.
//! - **A taker hands out once for each piece**, and before that where it has as many bytes to write as a piece has. So there is
//!   about one write for each read.
ghost use Rattle.std.specs.Prelude.{◌≡◌, ◌+◌, ◌<◌, ◌≤◌, ℕ, List, [], ◌∷◌, ◌++◌, OnOk, length};
ghost use Rattle.ordup_grammar.specs.Lines.{IsPart, Line, cut};
ghost use Rattle.ordup_script.specs.Readings.{EndsIn, Reads, ReadsOn, Takes};

use crate::sizes::PIECE;
use ordup_grammar::{LineBuffer, LinePart, split_line};
use std::io::Read;

/// What takes the lines of a script, one after another: it answers them, or makes a plan of them.
pub(crate) trait LineTaker {
    /// Why it takes no more of them.
    type Fault;

    // What was `first` took these lines, and is this now.
    ghost took: { Self → Self → List Line → Type 0 };

    // What was `first` stopped for this fault at one of these lines, and is this now.
    ghost stopped: { Self → Self → List Line → Self.Fault → Type 0 };

    // All that the lines gave was handed out.
    ghost is_clear: { Self → Type 0 };

    // How many more lines it can take.
    ghost lines_left: { Self → ℕ };

    /// Takes the next line, of these bytes.
    ///
    /// After whatever lines were taken before, this line was taken too, or the taker stopped at it. It can take at most one line
    /// fewer than before.
    fn take(&mut self, line: &LinePart<'_>) -> Result<(), Self::Fault>
        requires { 0 < lines_left self.old }
        ensures lines { Takes took stopped self.old self.new (cut line.now ∷ []) result }
        ensures lines_left { OnOk result (lines_left self.old ≤ lines_left self.new + 1) };

    /// Hands out what the lines gave so far.
    ///
    /// The same lines were taken as before, or the taker stopped. All that they gave was handed out. It can take as many lines as
    /// before.
    fn hand_out(&mut self) -> Result<(), Self::Fault>
        ensures lines { Takes took stopped self.old self.new [] result }
        ensures clear { OnOk result (is_clear self.new) }
        ensures lines_left { OnOk result (lines_left self.old ≤ lines_left self.new) };
}

/// How much of a script was read.
pub(crate) enum Extent {
    /// All of it.
    Whole,
    /// What there was before a read failed.
    BeforeFailure,
    /// As many bytes as it may have. It has more.
    UpToLimit,
}

/// Gives the taker the line that is held, and holds nothing after it.
///
/// After whatever was read before, a line feed was read, or the taker stopped. It can take at most one line fewer.
fn take_held<T: LineTaker>(held: &mut LineBuffer, taker: &mut T) -> Result<(), T::Fault>
    requires { 0 < T.lines_left taker.old }
    ensures lines { ReadsOn T.took T.stopped taker.old held.old taker.new held.new (10 ∷ []) result }
    ensures lines_left { OnOk result (T.lines_left taker.old ≤ T.lines_left taker.new + 1) }
{
    taker.take(&held.line())?;
    held.clear();
    Ok(())
}

/// Gives the taker the line that this part ends. Where nothing is held the part is the line, and is taken where it lies.
///
/// After whatever was read before, the part and a line feed were read, or the taker stopped. It can take at most one line fewer.
#[inline(always)]
fn end_line<T: LineTaker>(
    held: &mut LineBuffer,
    taker: &mut T,
    part: &LinePart<'_>,
) -> Result<(), T::Fault>
    requires part { IsPart part.now }
    requires lines_left { 0 < T.lines_left taker.old }
    ensures lines { ReadsOn T.took T.stopped taker.old held.old taker.new held.new (part.now ++ 10 ∷ []) result }
    ensures lines_left { OnOk result (T.lines_left taker.old ≤ T.lines_left taker.new + 1) }
{
    if held.is_empty() {
        return taker.take(part);
    }
    held.hold(part.as_bytes());
    take_held(held, taker)
}

/// Gives the taker each line that ends in the next piece of a script, holds what is left of the piece, and has the taker hand out.
///
/// After whatever was read before, this piece was read, or the taker stopped. All that the lines gave was handed out. The taker can
/// take fewer lines than before by at most the number of bytes in the piece.
fn read_piece<T: LineTaker>(
    held: &mut LineBuffer,
    taker: &mut T,
    piece: &[u8],
) -> Result<(), T::Fault>
    requires { length piece.now ≤ T.lines_left taker.old }
    ensures lines { ReadsOn T.took T.stopped taker.old held.old taker.new held.new piece.now result }
    ensures clear { OnOk result (T.is_clear taker.new) }
    ensures lines_left { OnOk result (T.lines_left taker.old ≤ T.lines_left taker.new + length piece.now) }
{
    let mut rest = piece;
    while let Some((part, more)) = split_line(rest) {
        end_line(held, taker, &part)?;
        rest = more;
    }
    held.hold(rest);
    taker.hand_out()
}

/// Gives the taker the line that no line feed ended, if there is one, and has the taker hand out.
///
/// After whatever was read before, the script ended here, or the taker stopped. All that the lines gave was handed out. The taker
/// can take at most one line fewer.
fn read_last_line<T: LineTaker>(held: &mut LineBuffer, taker: &mut T) -> Result<(), T::Fault>
    requires clear { T.is_clear taker.old }
    requires lines_left { 0 < T.lines_left taker.old }
    ensures lines { EndsIn T.took T.stopped taker.old held.old taker.new result }
    ensures clear { OnOk result (T.is_clear taker.new) }
    ensures lines_left { OnOk result (T.lines_left taker.old ≤ T.lines_left taker.new + 1) }
{
    if held.is_empty() {
        return Ok(());
    }
    take_held(held, taker)?;
    taker.hand_out()
}

/// Reads a script of at most `limit` bytes to its end, gives each line to the taker, and has it hand out.
///
/// The taker took the lines of what was read, or stopped at one of them (`Reads`). All that they gave was handed out. The taker can
/// take fewer lines than before by at most `limit` and one.
pub(crate) fn read_lines<T: LineTaker, R: Read>(
    taker: &mut T,
    input: &mut R,
    limit: u64,
) -> Result<Extent, T::Fault>
    requires start { T.took taker.old taker.old [] }
    requires clear { T.is_clear taker.old }
    requires lines_left { limit < T.lines_left taker.old }
    ensures lines { Reads (record {
      had = R.remaining input.old;
      has = R.remaining input.new;
      limit = limit;
    }) (T.took taker.old taker.new) (T.stopped taker.old taker.new) result }
    ensures clear { OnOk result (T.is_clear taker.new) }
    ensures lines_left { OnOk result (T.lines_left taker.old ≤ T.lines_left taker.new + limit + 1) }
{
    let mut held = LineBuffer::new();
    let mut piece = [0u8; PIECE];
    let mut taken = 0u64;
    'pieces: loop {
        let Ok(count) = input.read(&mut piece) else {
            return Ok(Extent::BeforeFailure);
        };
        if count == 0 {
            read_last_line(&mut held, taker)?;
            return Ok(Extent::Whole);
        }
        if count as u64 > limit - taken {
            let within = (limit - taken) as usize;
            read_piece(&mut held, taker, &piece[..within])?;
            return Ok(Extent::UpToLimit);
        }
        read_piece(&mut held, taker, &piece[..count])?;
        taken += count as u64;
    }
}
