//! A new primary, and a run of events, each with each of its growths refused in turn.
use crate::expect::made;
use ordup_answers::push_answer;
use ordup_objects::{ObjectTable, Refusal};
use ordup_primary::Primary;
use ordup_text::TextBuffer;
use ordup_world::{Event, Run, run};
use std::alloc::AllocError;
use std::process::Abort;
use test_fixtures::{a, add, expect, x};
use test_memory_fixtures::{Heap, Scarce, declared};

/// Makes a primary with this count of growths allowed, where its declarations are given up: why there is none, if there is none.
fn primary_refusal(rt: &impl Abort, heap: Heap<'_>, allowed: u64) -> Option<Refusal> {
    let setup = made(rt, declared(heap));
    expect!(rt; setup.is_ready());
    heap.allow(allowed);
    match Primary::new(heap, setup) {
        Ok(primary) => {
            expect!(rt; primary.acked() == 0);
            expect!(rt; primary.log().len() == 0);
            primary.discard();
            None
        }
        Err(refusal) => Some(refusal),
    }
}

// It met 12: 3 of the log, which are its two states and the list of what its values travelled, 1 of the list of sites, 2 of a's
// limits, and 6 of the ledgers, of which 2 are of a's.
// shows: want of memory
#[test]
fn each_growth_of_a_new_primary_is_refused(rt: HostRuntime) {
    let scarce = Scarce::new(rt.alloc(), 0);
    for allowed in 0..100u64 {
        let refusal = primary_refusal(&rt, &scarce, allowed);
        if !scarce.has_refused() {
            expect!(&rt; refusal.is_none());
            expect!(&rt; allowed > 0);
            return;
        }
        expect!(&rt; refusal == Some(Refusal::NoMemory), allowed);
    }
    panic!(rt; "its growths have no end");
}

/// 5 and 1 are added to x, and each is settled; the second is waited for until a has reported it.
fn events<'a>(
    rt: &impl Abort,
    heap: Heap<'a>,
    objects: &ObjectTable<Heap<'a>>,
) -> Vec<Event<Heap<'a>>, Heap<'a>> {
    let events = [
        Event::Propose(made(rt, add(objects, x(), 5))),
        Event::Settle,
        Event::Propose(made(rt, add(objects, x(), 1))),
        Event::Settle,
        Event::Settle,
        Event::Send(a()),
        Event::Send(a()),
        Event::Apply(a()),
        Event::Report(a()),
        Event::Settle,
        Event::Apply(a()),
        Event::Report(a()),
        Event::Settle,
        Event::Show(a()),
    ];
    let Ok(events) = Vec::from_array(heap, events) else {
        panic!(rt; "there is no list")
    };
    events
}

const ANSWERS: &[u8] = b"ok proposed 1
ok acked 1
ok proposed 2
ok round 2 a
ok waiting 2 a
ok sent a 1
ok sent a 2
ok applied a 1
ok reported a 1
ok waiting 2 a
ok applied a 2
ok reported a 2
ok acked 2
ok show a sent 2 applied 2 reported 2 rounds 1 x=6 y=10
";

/// Runs the events with this count of growths allowed.
fn run_with<'a>(rt: &impl Abort, heap: Heap<'a>, allowed: u64) -> Result<Run<Heap<'a>>, Refusal> {
    let setup = made(rt, declared(heap));
    let events = events(rt, heap, setup.objects());
    heap.allow(allowed);
    run(heap, setup, events)
}

/// Adds the texts of the answers, up to the first that was refused memory.
fn push_answers<'a>(out: &mut TextBuffer<Heap<'a>>, run: &Run<Heap<'a>>) -> Result<(), AllocError> {
    let setup = run.world.primary().setup();
    for answer in run.answers.as_slice() {
        push_answer(out, setup, b"a", b"", answer)?;
    }
    Ok(())
}

// It met 23: 15 of the start, 1 of the list of answers, and 7 within events: 3 of the first proposal, 3 of the settlement that forces
// a, and 1 of what is shown.
// shows: run answers; want of memory
#[test]
fn each_growth_of_a_run_is_refused(rt: HostRuntime) {
    let scarce = Scarce::new(rt.alloc(), 0);
    let ample = Scarce::new(rt.alloc(), u64::MAX);
    let mut is_refused_within = false;
    for allowed in 0..100u64 {
        let mut out = TextBuffer::new(&ample);
        let outcome = run_with(&rt, &scarce, allowed);
        let refused = scarce.has_refused();
        let is_whole = match &outcome {
            Ok(run) => push_answers(&mut out, run).is_ok(),
            Err(refusal) => {
                expect!(&rt; *refusal == Refusal::NoMemory, allowed);
                false
            }
        };
        is_refused_within = is_refused_within || (refused && outcome.is_ok());
        drop(outcome);
        expect!(&rt; ANSWERS.starts_with(out.as_slice()), allowed);
        expect!(&rt; is_whole != refused, allowed);
        if !refused {
            expect!(&rt; out.as_slice() == ANSWERS);
            expect!(&rt; is_refused_within);
            return;
        }
    }
    panic!(rt; "its growths have no end");
}
