//! Steps of a world and of a primary that take no memory: with every growth refused they are answered as ever.
use crate::expect::made;
use ordup_limits::Scope;
use ordup_objects::{Name, ObjectId, Refusal, SiteId};
use ordup_primary::Primary;
use ordup_query::{QueryAnswer, ReadAnswer};
use ordup_world::{Answer, Event, World};
use std::process::Abort;
use test_fixtures::{a, expect, expect_eq, mark_sent, propose_add, report_all, x, y, z};
use test_memory_fixtures::{Heap, Scarce, grouped, started};

/// What an event is answered, of those that take no memory.
#[derive(Clone, Copy, Debug, PartialEq)]
enum Told {
    Applied(SiteId, u64),
    Reported(SiteId, u64),
    Read(ReadAnswer),
    Ended(QueryAnswer),
    Abandoned,
    Refused(Refusal),
    Other,
}

fn told_of<'a>(answer: &Answer<Heap<'a>>) -> Told {
    match answer {
        Answer::Applied { site, number } => Told::Applied(*site, *number),
        Answer::Reported { site, place } => Told::Reported(*site, *place),
        Answer::ReadOut(read) => Told::Read(*read),
        Answer::Ended(answer) => Told::Ended(*answer),
        Answer::Abandoned(_) => Told::Abandoned,
        Answer::Refused(refusal) => Told::Refused(*refusal),
        _ => Told::Other,
    }
}

/// Steps a world by an event.
fn step<'a>(world: &mut World<Heap<'a>>, event: Event<Heap<'a>>) -> Told {
    let answer = world.step(event);
    let told = told_of(&answer);
    drop(answer);
    told
}

/// Begins a query at a, with this import limit.
fn begin<'a>(world: &mut World<Heap<'a>>, query: Name, limit: u64) -> Told {
    let site = a();
    step(world, Event::Begin { query, site, limit })
}

/// Reads an object by a query.
fn read<'a>(world: &mut World<Heap<'a>>, query: Name, object: ObjectId) -> Told {
    step(world, Event::Read { query, object })
}

/// Sends the third update to a, and begins two queries there, whose reference is the second: with memory. The rest has none.
fn expect_steps<'a>(rt: &impl Abort, heap: Heap<'a>, world: &mut World<Heap<'a>>) {
    let (q, r) = (made(rt, Name::new(b"q")), made(rt, Name::new(b"r")));
    heap.allow_all();
    expect_eq!(rt; step(world, Event::Send(a())), Told::Other);
    expect_eq!(rt; begin(world, q, 5), Told::Other);
    expect_eq!(rt; begin(world, r, 0), Told::Other);
    heap.allow(0);
    // a holds both updates: x is 3 and y is 14. The third adds 4 and 3.
    let of_both = ReadAnswer {
        value: 3,
        import: 0,
        total: 0,
    };
    let of_three = ReadAnswer {
        value: 7,
        import: 4,
        total: 4,
    };
    let ended = QueryAnswer {
        place: 2,
        sum: 10,
        total: 4,
        reads: 2,
    };
    expect_eq!(rt; read(world, q, x()), Told::Read(of_both));
    expect_eq!(rt; step(world, Event::Apply(a())), Told::Applied(a(), 3));
    expect_eq!(rt; step(world, Event::Apply(a())), Told::Refused(Refusal::NothingToApply));
    expect_eq!(rt; read(world, q, x()), Told::Read(of_three));
    expect_eq!(rt; read(world, q, y()), Told::Refused(Refusal::OverImport));
    expect_eq!(rt; read(world, q, z()), Told::Refused(Refusal::UnknownObject));
    expect_eq!(rt; step(world, Event::Report(a())), Told::Reported(a(), 3));
    expect_eq!(rt; step(world, Event::End(q)), Told::Ended(ended));
    expect_eq!(rt; step(world, Event::Abandon(r)), Told::Abandoned);
    expect_eq!(rt; step(world, Event::Abandon(r)), Told::Refused(Refusal::UnknownQuery));
    expect_eq!(rt; world.primary().acked(), 2);
    expect!(rt; !heap.has_refused());
}

/// Steps a world by each of the events that take no memory.
// shows: World::step answer; no memory
#[test]
fn a_world_is_stepped_without_memory(rt: HostRuntime) {
    let scarce = Scarce::new(rt.alloc(), u64::MAX);
    let mut world = made(&rt, grouped(&scarce));
    expect_steps(&rt, &scarce, &mut world);
    world.discard();
}

/// Replaces the limit of a on x by 3.
fn relimit<'a>(rt: &impl Abort, primary: &mut Primary<Heap<'a>>) -> Result<u64, Refusal> {
    primary.keeps();
    expect!(rt; primary.setup().sites() > 0);
    primary.relimit(a(), Scope::Object(x()), 3)
}

/// Sees that one update was sent to a and reported by it, and that its limit on x is 3, and the only one.
fn expect_noted<'a>(rt: &impl Abort, primary: &Primary<Heap<'a>>) {
    primary.keeps();
    expect!(rt; primary.setup().sites() > 0);
    expect_eq!(rt; [primary.sent(a()), primary.reported(a())], [1, 1]);
    let limits = primary.limits(a());
    expect!(rt; limits.len() == 1);
    expect!(rt; limits.entries().len() == 1);
    let (scope, amount) = limits.get(0);
    expect!(rt; scope == Scope::Object(x()));
    expect_eq!(rt; amount, 3);
}

/// Notes what is sent and reported, and replaces the limit on x, which holds from place 1, by one from there.
// shows: Primary::mark_sent marked; Primary::report noted; no memory
#[test]
fn a_primary_notes_what_is_sent_and_reported_without_memory(rt: HostRuntime) {
    let scarce = Scarce::new(rt.alloc(), 0);
    let mut primary = made(&rt, started(&scarce));
    expect_eq!(&rt; propose_add(&mut primary, 3), Ok(1));
    scarce.allow(0);
    expect_eq!(&rt; relimit(&rt, &mut primary), Ok(1));
    made(&rt, mark_sent(&mut primary, a()));
    made(&rt, report_all(&mut primary, a()));
    expect_noted(&rt, &primary);
    expect!(&rt; !scarce.has_refused());
    primary.discard();
}
