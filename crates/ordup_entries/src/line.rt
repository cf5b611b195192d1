//! The line of a step, read.
ghost use Rattle.std.specs.Prelude.{◌≡◌};
ghost use Rattle.ordup_entries.specs.Lines.{answer_by, answer_at, limit_answer_by, limit_answer_at, aged_at, seconds_at, began_at, settings_at, scope_by, scope_at, refusal_at, acknowledged_at};
ghost use Rattle.ordup_entries.specs.Lines.{known_at, tell_at, ask_at, gone_at, relimit_at, answered_at, step_by, step_of};

use crate::answer::{Answer, LimitAnswer};
use crate::fields::is_spelled;
use crate::settings::{Began, Settings};
use crate::sizes::{MOST_AMOUNT, MOST_COUNTED, MOST_NUMBER, MOST_WORD_BYTES};
use crate::step::Step;
use crate::text::Text;
use ordup_grammar::{ScopeWord, Word};

/// The number and the name of a refusal.
fn refusal<'a>(fields: &Text<'a>) -> Option<(u64, Word<'a>)>
    ensures { result ≡ refusal_at fields.now }
{
    let (number, rest) = fields.number(1, MOST_COUNTED)?;
    let name = rest.last_word(MOST_WORD_BYTES)?;
    Some((number, name))
}

/// A place and an epoch.
fn acknowledged(fields: &Text<'_>) -> Option<(u64, u64)>
    ensures { result ≡ acknowledged_at fields.now }
{
    let rest = fields.behind(b"acked")?;
    let (place, rest) = rest.number(1, MOST_COUNTED)?;
    let rest = rest.behind(b"epoch")?;
    let epoch = rest.last_number(1, MOST_NUMBER)?;
    Some((place, epoch))
}

/// An answer, which ends the line.
#[tactic(auto, unfolding(crate::specs::Lines::answer_at))]
fn answer<'a>(fields: &Text<'a>) -> Option<Answer<'a>>
    ensures { result ≡ answer_at fields.now }
{
    let (first, rest) = fields.word()?;
    let first = first.as_bytes();
    if is_spelled(first, b"refused") {
        let (number, name) = refusal(&rest)?;
        Some(Answer::Refused { number, name })
    } else if is_spelled(first, b"ok") {
        let (place, epoch) = acknowledged(&rest)?;
        Some(Answer::Acknowledged { place, epoch })
    } else {
        None
    }
}

/// An answer to a change of a limit, which ends the line.
#[tactic(auto, unfolding(crate::specs::Lines::limit_answer_at))]
fn limit_answer<'a>(fields: &Text<'a>) -> Option<LimitAnswer<'a>>
    ensures { result ≡ limit_answer_at fields.now }
{
    let (first, rest) = fields.word()?;
    let first = first.as_bytes();
    if is_spelled(first, b"refused") {
        let (number, name) = refusal(&rest)?;
        Some(LimitAnswer::Refused { number, name })
    } else if is_spelled(first, b"ok") {
        let place = rest.last_number(1, MOST_COUNTED + 1)?;
        Some(LimitAnswer::InForce { place })
    } else {
        None
    }
}

/// An age, where there is one, and an answer.
#[tactic(auto, unfolding(crate::specs::Lines::aged_at))]
fn aged<'a>(fields: &Text<'a>) -> Option<(u64, Answer<'a>)>
    ensures { result ≡ aged_at fields.now }
{
    match fields.number(1, MOST_NUMBER) {
        Some((age, rest)) => {
            let answer = answer(&rest)?;
            Some((age, answer))
        }
        None => {
            let answer = answer(fields)?;
            Some((0, answer))
        }
    }
}

/// The seconds of both settings, of which one is not 0, or nothing.
#[tactic(auto, unfolding(crate::specs::Lines::seconds_at))]
fn seconds(fields: &Text<'_>) -> Option<(u64, u64)>
    ensures { result ≡ seconds_at fields.now }
{
    if fields.is_empty() {
        return Some((0, 0));
    }
    let (seconds, rest) = fields.number(0, MOST_COUNTED)?;
    let began = rest.last_number(0, MOST_COUNTED)?;
    if seconds == 0 && began == 0 {
        return None;
    }
    Some((seconds, began))
}

/// How a primary began, and the seconds of both settings.
#[tactic(auto, unfolding(crate::specs::Lines::began_at))]
fn began<'a>(fields: &Text<'a>) -> Option<(Began<'a>, u64)>
    ensures { result ≡ began_at fields.now }
{
    let (every, rest) = fields.number(1, MOST_COUNTED)?;
    let (remembers, rest) = rest.number(1, MOST_COUNTED)?;
    let (origin, rest) = rest.word_within(MOST_WORD_BYTES)?;
    let (now, began) = seconds(&rest)?;
    Some((
        Began {
            every,
            remembers,
            origin,
            seconds: began,
        },
        now,
    ))
}

/// Settings, which end the line.
#[tactic(auto, unfolding(crate::specs::Lines::settings_at))]
fn settings<'a>(fields: &Text<'a>) -> Option<Settings<'a>>
    ensures { result ≡ settings_at fields.now }
{
    let (every, rest) = fields.number(1, MOST_COUNTED)?;
    let (remembers, rest) = rest.number(1, MOST_COUNTED)?;
    let (origin, rest) = rest.word_within(MOST_WORD_BYTES)?;
    let (version, rest) = rest.word_within(MOST_WORD_BYTES)?;
    let (began, seconds) = began(&rest)?;
    Some(Settings {
        every,
        remembers,
        origin,
        version,
        began,
        seconds,
    })
}

/// What a limit weighs, and what is left.
#[tactic(auto, unfolding(crate::specs::Lines::scope_at))]
fn scope<'a>(fields: &Text<'a>) -> Option<(ScopeWord<'a>, Text<'a>)>
    ensures { result ≡ scope_at fields.now }
{
    let (first, rest) = fields.word()?;
    let first = first.as_bytes();
    if is_spelled(first, b"object") {
        let (object, rest) = rest.name()?;
        Some((ScopeWord::Object(object), rest))
    } else if is_spelled(first, b"group") {
        let (group, rest) = rest.name()?;
        Some((ScopeWord::Group(group), rest))
    } else if is_spelled(first, b"all") {
        Some((ScopeWord::All, rest))
    } else if is_spelled(first, b"count") {
        Some((ScopeWord::Count, rest))
    } else {
        None
    }
}

#[tactic(auto, unfolding(crate::specs::Lines::known_at))]
fn known<'a>(fields: &Text<'a>) -> Option<Step<'a>>
    ensures { result ≡ known_at fields.now }
{
    let (client, rest) = fields.client()?;
    let (number, rest) = rest.number(1, MOST_NUMBER)?;
    let (digest, rest) = rest.word_within(MOST_WORD_BYTES)?;
    let (epoch, rest) = rest.number(1, MOST_NUMBER)?;
    let (age, answer) = aged(&rest)?;
    Some(Step::Known {
        client,
        number,
        digest,
        epoch,
        age,
        answer,
    })
}

#[tactic(auto, unfolding(crate::specs::Lines::tell_at))]
fn tell<'a>(fields: &Text<'a>) -> Option<Step<'a>>
    ensures { result ≡ tell_at fields.now }
{
    let (site, rest) = fields.name()?;
    let count = rest.last_number(1, MOST_COUNTED)?;
    Some(Step::Tell { site, count })
}

#[tactic(auto, unfolding(crate::specs::Lines::ask_at))]
fn ask<'a>(fields: &Text<'a>) -> Option<Step<'a>>
    ensures { result ≡ ask_at fields.now }
{
    let (client, rest) = fields.client()?;
    let (number, rest) = rest.number(1, MOST_NUMBER)?;
    let changes = rest.line()?;
    Some(Step::Ask {
        client,
        number,
        changes,
    })
}

#[tactic(auto, unfolding(crate::specs::Lines::gone_at))]
fn gone<'a>(fields: &Text<'a>) -> Option<Step<'a>>
    ensures { result ≡ gone_at fields.now }
{
    let (site, rest) = fields.name()?;
    let count = rest.last_number(0, MOST_COUNTED)?;
    Some(Step::Gone { site, count })
}

#[tactic(auto, unfolding(crate::specs::Lines::relimit_at))]
fn relimit<'a>(fields: &Text<'a>) -> Option<Step<'a>>
    ensures { result ≡ relimit_at fields.now }
{
    let (site, rest) = fields.name()?;
    let (scope, rest) = scope(&rest)?;
    let (amount, rest) = rest.number(0, MOST_AMOUNT)?;
    let answer = limit_answer(&rest)?;
    Some(Step::Relimit {
        site,
        scope,
        amount,
        answer,
    })
}

#[tactic(auto, unfolding(crate::specs::Lines::answered_at))]
fn answered<'a>(fields: &Text<'a>) -> Option<Step<'a>>
    ensures { result ≡ answered_at fields.now }
{
    let (client, rest) = fields.client()?;
    let (number, rest) = rest.number(1, MOST_NUMBER)?;
    let (digest, rest) = rest.word_within(MOST_WORD_BYTES)?;
    let answer = answer(&rest)?;
    Some(Step::Answered {
        client,
        number,
        digest,
        answer,
    })
}

impl<'a> Step<'a> {
    /// The step that a line is, which has no line feed.
    pub(crate) fn read(line: &Text<'a>) -> Option<Step<'a>>
        ensures { result ≡ step_of line.now }
    {
        let (kind, fields) = line.first_word();
        read_kind(kind.as_bytes(), &fields)
    }
}

/// The step of a kind, by what is behind its first word.
#[tactic(auto, unfolding(crate::specs::Lines::step_by))]
fn read_kind<'a>(kind: &[u8], fields: &Text<'a>) -> Option<Step<'a>>
    ensures { result ≡ step_by (kind.now, fields.now) }
{
    if is_spelled(kind, b"ask") {
        ask(fields)
    } else if is_spelled(kind, b"answer") {
        answered(fields)
    } else if is_spelled(kind, b"tell") {
        tell(fields)
    } else if is_spelled(kind, b"settle") {
        let count = fields.last_number(1, MOST_COUNTED)?;
        Some(Step::Settle { count })
    } else if is_spelled(kind, b"elapsed") {
        let seconds = fields.last_number(1, MOST_COUNTED)?;
        Some(Step::Elapsed { seconds })
    } else if is_spelled(kind, b"known") {
        known(fields)
    } else if is_spelled(kind, b"declare") {
        Some(Step::Declare(fields.line()?))
    } else if is_spelled(kind, b"begin") {
        Some(Step::Begin(settings(fields)?))
    } else if is_spelled(kind, b"wish") {
        Some(Step::Wish(settings(fields)?))
    } else if is_spelled(kind, b"want") {
        Some(Step::Want(fields.line()?))
    } else if is_spelled(kind, b"leave") {
        let site = fields.last_name()?;
        Some(Step::Leave { site })
    } else if is_spelled(kind, b"gone") {
        gone(fields)
    } else if is_spelled(kind, b"relimit") {
        relimit(fields)
    } else {
        None
    }
}
