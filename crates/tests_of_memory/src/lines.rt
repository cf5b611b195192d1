//! The lines of a script, each with each of its growths refused in turn.
//!
//! The store takes its memory from one allocator, which gives a count of allocations, and the text of the answers from another,
//! which gives all.
use crate::digests::{Digest, add_primary, add_setup};
use crate::growths::TRANSCRIPTS;
use ordup_answers::{Answering, ScriptEnd};
use ordup_grammar::LinePart;
use ordup_text::TextBuffer;
use std::alloc::AllocError;
use std::process::Abort;
use test_fixtures::expect;
use test_memory_fixtures::{Heap, MarkedLine, Scarce};

/// The line that stands behind a `>` of a transcript.
fn marked<'a>(rt: &impl Abort, text: &'a str) -> MarkedLine<'a> {
    let Some(line) = MarkedLine::parse(text) else {
        panic!(rt; "{text}")
    };
    line
}

/// Where a script stands, and what takes its answers.
#[derive(Drop)]
struct Session<'a> {
    scarce: Heap<'a>,
    ample: Heap<'a>,
    script: Answering<Heap<'a>>,
    out: TextBuffer<Heap<'a>>,
}

impl<'a> Session<'a> {
    fn new(scarce: Heap<'a>, ample: Heap<'a>) -> Self {
        Session {
            scarce,
            ample,
            script: Answering::new(scarce),
            out: TextBuffer::new(ample),
        }
    }
}

/// Answers a line.
fn answer_line(session: &mut Session<'_>, line: &str) -> Result<(), AllocError> {
    session.out.clear();
    let line = LinePart::new(line.as_bytes());
    session
        .script
        .answer(session.scarce, &line, &mut session.out)
}

/// Answers a line with memory, and sees that it is answered as the script says.
fn expect_answer(rt: &impl Abort, session: &mut Session<'_>, step: MarkedLine<'_>) {
    session.scarce.allow_all();
    let answered = answer_line(session, step.line);
    expect!(rt; answered.is_ok(), step.line);
    expect!(rt; is_answered(session, step), step.line);
}

/// Whether the last line was answered as the script says.
fn is_answered(session: &Session<'_>, step: MarkedLine<'_>) -> bool {
    session.out.as_slice() == step.answer.as_bytes()
}

/// Answers with memory the lines of a script from this index on, up to another one.
fn answer_lines(rt: &impl Abort, session: &mut Session<'_>, script: &str, from: usize, to: usize) {
    for (index, text) in script.split('>').skip(1).enumerate() {
        if from <= index && index < to {
            expect_answer(rt, session, marked(rt, text));
        }
    }
}

/// What the readers of a store answer. They take no memory.
fn digest_of(store: &ScriptEnd<Heap<'_>>) -> Digest {
    let mut digest = Digest::new();
    match store {
        ScriptEnd::Declared(setup) => add_setup(&mut digest, setup),
        ScriptEnd::Running(world) => add_primary(&mut digest, world.primary()),
    }
    digest
}

/// What the readers of a store answer, with nothing allowed.
fn digest_without_memory(rt: &impl Abort, session: &Session<'_>) -> Digest {
    session.scarce.allow(0);
    let digest = digest_of(session.script.end());
    expect!(rt; !session.scarce.has_refused());
    session.scarce.allow_all();
    digest
}

/// What a store shows: what its readers answer, and what `show` is answered, with memory.
fn show(rt: &impl Abort, session: &mut Session<'_>) -> Digest {
    let mut digest = digest_without_memory(rt, session);
    for line in ["show a", "show b"] {
        expect!(rt; answer_line(session, line).is_ok());
        digest.add_bytes(session.out.as_slice());
    }
    digest
}

/// Answers a line with this count of growths allowed: whether one was refused.
fn answer_within(
    rt: &impl Abort,
    session: &mut Session<'_>,
    step: MarkedLine<'_>,
    allowed: u64,
) -> bool {
    session.scarce.allow(allowed);
    let answered = answer_line(session, step.line);
    let refused = session.scarce.has_refused();
    expect!(rt; answered.is_err() == refused, (step.line, allowed));
    refused
}

/// Answers a line with this count of growths allowed: whether one was refused. Then there is no answer, and the store shows what it
/// did before.
fn is_refused(
    rt: &impl Abort,
    session: &mut Session<'_>,
    step: MarkedLine<'_>,
    allowed: u64,
) -> bool {
    let line = step.line;
    let before = show(rt, session);
    let refused = answer_within(rt, session, step, allowed);
    if refused {
        expect!(rt; session.out.as_slice().is_empty(), (line, allowed));
        expect!(rt; show(rt, session) == before, (line, allowed));
    } else {
        expect!(rt; is_answered(session, step), (line, allowed));
    }
    refused
}

/// Answers a script whose line at this index has this count of growths allowed, and where one is refused is answered again: whether
/// one was refused.
fn is_refused_at(
    rt: &impl Abort,
    session: &mut Session<'_>,
    script: &str,
    index: usize,
    allowed: u64,
) -> bool {
    answer_lines(rt, session, script, 0, index);
    let Some(text) = script.split('>').skip(1).nth(index) else {
        panic!(rt; "there is no line")
    };
    let step = marked(rt, text);
    let refused = is_refused(rt, session, step, allowed);
    let from = if refused {
        index
    } else {
        index.saturating_add(1)
    };
    answer_lines(rt, session, script, from, usize::MAX);
    refused
}

/// How many growths the line at this index of a script meets, each of which is refused in turn.
fn growths_at(
    rt: &impl Abort,
    scarce: Heap<'_>,
    ample: Heap<'_>,
    script: &str,
    index: usize,
) -> u64 {
    for allowed in 0..100u64 {
        let mut session = Session::new(scarce, ample);
        let refused = is_refused_at(rt, &mut session, script, index, allowed);
        drop(session);
        if !refused {
            return allowed;
        }
    }
    panic!(rt; "its growths have no end")
}

/// Refuses each growth of each line in turn.
// shows: Answering::answer kept; want of memory
#[test]
fn each_growth_of_each_line_is_refused(rt: HostRuntime) {
    let scarce = Scarce::new(rt.alloc(), 0);
    let ample = Scarce::new(rt.alloc(), u64::MAX);
    for script in TRANSCRIPTS {
        for (index, text) in script.split('>').skip(1).enumerate() {
            let step = marked(&rt, text);
            let growths = growths_at(&rt, &scarce, &ample, script, index);
            let is_so = match step.mark {
                "+" => growths > 0,
                "-" => growths == 0,
                _ => true,
            };
            expect!(&rt; is_so, (growths, text));
        }
    }
}
