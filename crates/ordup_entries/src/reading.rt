//! An entry, read.
ghost use Rattle.std.specs.Prelude.{◌≡◌, ◌≤◌, ◌<◌, ◌+◌, ◌-◌, ℕ, true, IfOk, IfErr, Ok, Err, MatchOption, length};
ghost use Rattle.ordup_entries.specs.Parts.{parts_of};
ghost use Rattle.ordup_entries.specs.Orders.{part_behind, counted};
ghost use Rattle.ordup_entries.specs.Entries.{ScriptEntry, is_entry, text_of};
ghost use Rattle.ordup_entries.specs.Reading.{header_at, header_of, steps_of, with_step, entry_of, Gives, GivesSteps};
ghost use Rattle.ordup_entries.specs.Sizes.{most_counted};
ghost use Rattle.ordup_entries.specs.WrongLines.{IsTold};
ghost use Rattle.ordup_entries.specs.declared.order.Part.TheVariants.{Start};

use crate::entry::{Entry, Header};
use crate::error::ReadError;
use crate::fields::is_spelled;
use crate::order::Part;
use crate::sizes::{
    MOST_COUNTED, MOST_ENTRY_BYTES, MOST_NUMBER, MOST_WORD_BYTES, MOST_WRITER_BYTES,
};
use crate::step::Step;
use crate::text::Text;
use std::alloc::Allocator;

impl<'a> Header<'a> {
    /// What a first line says, which has no line feed.
    fn read(line: &Text<'a>) -> Option<Header<'a>>
        ensures { result ≡ header_of line.now }
    {
        let (first, fields) = line.first_word();
        if !is_spelled(first.as_bytes(), b"ordup-node") {
            return None;
        }
        Header::read_fields(&fields)
    }

    /// What a first line says behind its first word.
    #[tactic(auto, unfolding(crate::specs::Reading::header_at))]
    fn read_fields(fields: &Text<'a>) -> Option<Header<'a>>
        ensures { result ≡ header_at fields.now }
    {
        let rest = fields.behind(b"1")?;
        let rest = rest.behind(b"epoch")?;
        let (epoch, rest) = rest.number(1, MOST_NUMBER)?;
        let rest = rest.behind(b"ordup")?;
        let (version, rest) = rest.word_within(MOST_WORD_BYTES)?;
        let rest = rest.behind(b"writer")?;
        let writer = rest.last_word(MOST_WRITER_BYTES)?;
        Some(Header {
            epoch,
            version,
            writer,
        })
    }
}

/// The step of the first line, if it may be next, and what is left behind the line.
fn next_step<'a>(part: Part, room: u64, lines: &Text<'a>) -> Option<(Step<'a>, Text<'a>)>
    requires { 0 < length lines.now }
    ensures next { (number : ℕ) → MatchOption result (steps_of number part room (parts_of lines.now) ≡ Err number) (λ found.
        steps_of number part room (parts_of lines.now)
        ≡ with_step found.0 (steps_of (number + 1) (part_behind found.0) (room - counted found.0) (parts_of found.1))) }
    ensures fits { MatchOption result (0 ≤ room) (λ found. (counted found.0 ≤ room) × (length found.1 < length lines.now)) }
{
    let (line, rest) = lines.line_and_rest()?;
    let step = Step::read(&line)?;
    if part.may_be_next(room, &step) {
        Some((step, rest))
    } else {
        None
    }
}

/// The steps of the lines behind the first.
fn read_steps<'a, A: Allocator + Copy>(
    alloc: A,
    lines: Text<'a>,
) -> Result<Vec<Step<'a>, A>, ReadError>
    ensures { GivesSteps (λ v. v.items) result (steps_of 2 Start most_counted (parts_of lines.entry)) }
{
    let mut steps = Vec::new(alloc);
    let mut part = Part::Start;
    let mut room = MOST_COUNTED;
    let mut rest = lines;
    while !rest.is_empty() {
        let number = steps.len() as u64 + 2;
        let Some((step, behind)) = next_step(part, room, &rest) else {
            return Err(ReadError::Line(number));
        };
        part = Part::behind(&step);
        room -= step.counted();
        steps.push(step)?;
        rest = behind;
    }
    Ok(steps)
}

/// The entry that a text is, or what is wrong with it.
#[tactic(auto, unfolding(crate::specs::Reading::entry_of))]
fn read<'a, A: Allocator + Copy>(alloc: A, text: &'a [u8]) -> Result<Entry<'a, A>, ReadError>
    ensures { Gives result (entry_of text.now) }
{
    if text.len() > MOST_ENTRY_BYTES {
        return Err(ReadError::TooLong);
    }
    let Some((line, rest)) = Text::new(text).line_and_rest() else {
        return Err(ReadError::Line(1));
    };
    let Some(header) = Header::read(&line) else {
        return Err(ReadError::Line(1));
    };
    match read_steps(alloc, rest) {
        Ok(steps) => Ok(Entry::new(header, steps)),
        Err(error) => Err(error),
    }
}

// promise found only told exact: a text is read as an entry where it is the text of one of the form, as that one alone; else its first wrong line is told
/// The entry that a text is. It promises, clause by clause:
///
/// - `found`: the entry is of the form, and the text is its text, each byte of it.
/// - `only`: the text of an entry of the form is read as that entry, unless memory is refused.
/// - `told`: of any other text the number of its first wrong line is told, from 1: the lines before it begin an entry, and with it they begin
///   none. A text that has too many bytes is told before any line is looked at.
/// - `exact`: which of all this it is follows from the text alone.
pub fn read_entry<'a, A: Allocator + Copy>(
    alloc: A,
    text: &'a [u8],
) -> Result<Entry<'a, A>, ReadError>
    ensures found { IfOk result (λ e. (is_entry e ≡ true) × (text.now ≡ text_of e)) }
    ensures only { (e : ScriptEntry) → is_entry e ≡ true → text.now ≡ text_of e → Gives result (Ok e) }
    ensures told { IfErr result (λ e. IsTold text.now e) }
    ensures exact { Gives result (entry_of text.now) }
{
    read(alloc, text)
}
