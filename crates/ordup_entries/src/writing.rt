//! An entry, written.
ghost use Rattle.std.specs.Prelude.{◌≡◌, ◌++◌, OnOk, OnErr};
ghost use Rattle.std.specs.List.{flat_map};
ghost use Rattle.ordup_entries.specs.Steps.{word_text, number_text, refusal_text, answer_text, limit_answer_text, age_text, seconds_text, settings_text, scope_text, step_text};
ghost use Rattle.ordup_entries.specs.Entries.{header_text, line_of, text_of};

use crate::answer::{Answer, LimitAnswer};
use crate::entry::{Entry, Header};
use crate::settings::Settings;
use crate::step::Step;
use ordup_grammar::{ScopeWord, Word};
use ordup_text::TextBuffer;
use std::alloc::{AllocError, Allocator};

fn push_word<A: Allocator + Copy>(out: &mut TextBuffer<A>, word: &[u8]) -> Result<(), AllocError>
    ensures { OnOk result (out.new.text ≡ out.old.text ++ word_text word.now) }
{
    out.push(b" ")?;
    out.push(word)
}

fn push_number<A: Allocator + Copy>(out: &mut TextBuffer<A>, number: u64) -> Result<(), AllocError>
    ensures { OnOk result (out.new.text ≡ out.old.text ++ number_text number) }
{
    out.push(b" ")?;
    out.push_number(number)
}

fn push_refusal<A: Allocator + Copy>(
    out: &mut TextBuffer<A>,
    number: u64,
    name: &Word<'_>,
) -> Result<(), AllocError>
    ensures { OnOk result (out.new.text ≡ out.old.text ++ refusal_text number name.now) }
{
    push_word(out, b"refused")?;
    push_number(out, number)?;
    push_word(out, name.as_bytes())
}

fn push_answer<A: Allocator + Copy>(
    out: &mut TextBuffer<A>,
    answer: &Answer<'_>,
) -> Result<(), AllocError>
    ensures { OnOk result (out.new.text ≡ out.old.text ++ answer_text answer.now) }
{
    match answer {
        Answer::Acknowledged { place, epoch } => {
            push_word(out, b"ok")?;
            push_word(out, b"acked")?;
            push_number(out, *place)?;
            push_word(out, b"epoch")?;
            push_number(out, *epoch)
        }
        Answer::Refused { number, name } => push_refusal(out, *number, name),
    }
}

fn push_limit_answer<A: Allocator + Copy>(
    out: &mut TextBuffer<A>,
    answer: &LimitAnswer<'_>,
) -> Result<(), AllocError>
    ensures { OnOk result (out.new.text ≡ out.old.text ++ limit_answer_text answer.now) }
{
    match answer {
        LimitAnswer::InForce { place } => {
            push_word(out, b"ok")?;
            push_number(out, *place)
        }
        LimitAnswer::Refused { number, name } => push_refusal(out, *number, name),
    }
}

fn push_age<A: Allocator + Copy>(out: &mut TextBuffer<A>, age: u64) -> Result<(), AllocError>
    ensures { OnOk result (out.new.text ≡ out.old.text ++ age_text age) }
{
    if age == 0 {
        return Ok(());
    }
    push_number(out, age)
}

/// Pushes the seconds of both settings, where one is not 0.
fn push_seconds<A: Allocator + Copy>(
    out: &mut TextBuffer<A>,
    seconds: u64,
    began: u64,
) -> Result<(), AllocError>
    ensures { OnOk result (out.new.text ≡ out.old.text ++ seconds_text seconds began) }
{
    if seconds == 0 && began == 0 {
        return Ok(());
    }
    push_number(out, seconds)?;
    push_number(out, began)
}

fn push_settings<A: Allocator + Copy>(
    out: &mut TextBuffer<A>,
    settings: &Settings<'_>,
) -> Result<(), AllocError>
    ensures { OnOk result (out.new.text ≡ out.old.text ++ settings_text settings.now) }
{
    push_number(out, settings.every)?;
    push_number(out, settings.remembers)?;
    push_word(out, settings.origin.as_bytes())?;
    push_word(out, settings.version.as_bytes())?;
    push_number(out, settings.began.every)?;
    push_number(out, settings.began.remembers)?;
    push_word(out, settings.began.origin.as_bytes())?;
    push_seconds(out, settings.seconds, settings.began.seconds)
}

fn push_scope<A: Allocator + Copy>(
    out: &mut TextBuffer<A>,
    scope: &ScopeWord<'_>,
) -> Result<(), AllocError>
    ensures { OnOk result (out.new.text ≡ out.old.text ++ scope_text scope.now) }
{
    match scope {
        ScopeWord::Object(object) => {
            push_word(out, b"object")?;
            push_word(out, object.as_bytes())
        }
        ScopeWord::Group(group) => {
            push_word(out, b"group")?;
            push_word(out, group.as_bytes())
        }
        ScopeWord::All => push_word(out, b"all"),
        ScopeWord::Count => push_word(out, b"count"),
    }
}

/// Pushes a first word, a name and a number.
fn push_counted<A: Allocator + Copy>(
    out: &mut TextBuffer<A>,
    kind: &[u8],
    site: &Word<'_>,
    count: u64,
) -> Result<(), AllocError>
    ensures { OnOk result (out.new.text ≡ out.old.text ++ (kind.now ++ (word_text site.now ++ number_text count))) }
{
    out.push(kind)?;
    push_word(out, site.as_bytes())?;
    push_number(out, count)
}

/// Pushes a first word, a client and the number of its request.
fn push_request<A: Allocator + Copy>(
    out: &mut TextBuffer<A>,
    kind: &[u8],
    client: &Word<'_>,
    number: u64,
) -> Result<(), AllocError>
    ensures { OnOk result (out.new.text ≡ out.old.text ++ (kind.now ++ (word_text client.now ++ number_text number))) }
{
    out.push(kind)?;
    push_word(out, client.as_bytes())?;
    push_number(out, number)
}

impl<'a> Step<'a> {
    /// Pushes the line of the step, without its line feed.
    pub(crate) fn push<A: Allocator + Copy>(
        &self,
        out: &mut TextBuffer<A>,
    ) -> Result<(), AllocError>
        ensures { OnOk result (out.new.text ≡ out.old.text ++ step_text self.now) }
    {
        match self {
            Step::Begin(settings) => {
                out.push(b"begin")?;
                push_settings(out, settings)
            }
            Step::Declare(line) => {
                out.push(b"declare")?;
                push_word(out, line.as_bytes())
            }
            Step::Known {
                client,
                number,
                digest,
                epoch,
                age,
                answer,
            } => {
                push_request(out, b"known", client, *number)?;
                push_word(out, digest.as_bytes())?;
                push_number(out, *epoch)?;
                push_age(out, *age)?;
                push_answer(out, answer)
            }
            Step::Tell { site, count } => push_counted(out, b"tell", site, *count),
            Step::Ask {
                client,
                number,
                changes,
            } => {
                push_request(out, b"ask", client, *number)?;
                push_word(out, changes.as_bytes())
            }
            Step::Settle { count } => {
                out.push(b"settle")?;
                push_number(out, *count)
            }
            Step::Wish(settings) => {
                out.push(b"wish")?;
                push_settings(out, settings)
            }
            Step::Want(line) => {
                out.push(b"want")?;
                push_word(out, line.as_bytes())
            }
            Step::Leave { site } => {
                out.push(b"leave")?;
                push_word(out, site.as_bytes())
            }
            Step::Gone { site, count } => push_counted(out, b"gone", site, *count),
            Step::Relimit {
                site,
                scope,
                amount,
                answer,
            } => {
                out.push(b"relimit")?;
                push_word(out, site.as_bytes())?;
                push_scope(out, scope)?;
                push_number(out, *amount)?;
                push_limit_answer(out, answer)
            }
            Step::Elapsed { seconds } => {
                out.push(b"elapsed")?;
                push_number(out, *seconds)
            }
            Step::Answered {
                client,
                number,
                digest,
                answer,
            } => {
                push_request(out, b"answer", client, *number)?;
                push_word(out, digest.as_bytes())?;
                push_answer(out, answer)
            }
        }
    }
}

fn push_header<A: Allocator + Copy>(
    out: &mut TextBuffer<A>,
    header: &Header<'_>,
) -> Result<(), AllocError>
    ensures { OnOk result (out.new.text ≡ out.old.text ++ header_text header.now) }
{
    out.push(b"ordup-node")?;
    push_word(out, b"1")?;
    push_word(out, b"epoch")?;
    push_number(out, header.epoch)?;
    push_word(out, b"ordup")?;
    push_word(out, header.version.as_bytes())?;
    push_word(out, b"writer")?;
    push_word(out, header.writer.as_bytes())
}

fn push_line<A: Allocator + Copy>(
    out: &mut TextBuffer<A>,
    step: &Step<'_>,
) -> Result<(), AllocError>
    ensures { OnOk result (out.new.text ≡ out.old.text ++ line_of (step_text step.now)) }
{
    step.push(out)?;
    out.push(b"\n")
}

fn push_steps<A: Allocator + Copy>(
    out: &mut TextBuffer<A>,
    steps: &[Step<'_>],
) -> Result<(), AllocError>
    ensures { OnOk result (out.new.text ≡ out.old.text ++ flat_map (λ s. line_of (step_text s)) steps.now) }
{
    for step in steps {
        push_line(out, step)?;
    }
    Ok(())
}

fn push_entry<A: Allocator + Copy, B: Allocator + Copy>(
    out: &mut TextBuffer<A>,
    entry: &Entry<'_, B>,
) -> Result<(), AllocError>
    ensures { OnOk result (out.new.text ≡ out.old.text ++ text_of entry.now) }
{
    push_header(out, entry.header())?;
    out.push(b"\n")?;
    push_steps(out, entry.steps())
}

// promise text err: what is written of an entry is its text, byte for byte; where memory is refused nothing is written
/// Pushes the text of an entry, be it of the form or not. Where memory is refused the buffer has the text that it had.
pub fn write_entry<A: Allocator + Copy, B: Allocator + Copy>(
    out: &mut TextBuffer<A>,
    entry: &Entry<'_, B>,
) -> Result<(), AllocError>
    ensures text { OnOk result (out.new.text ≡ out.old.text ++ text_of entry.now) }
    ensures err { OnErr result (out.new.text ≡ out.old.text) }
{
    let mut text = TextBuffer::new(*out.allocator());
    push_entry(&mut text, entry)?;
    out.reserve(text.len())?;
    out.put(text.as_slice());
    Ok(())
}
