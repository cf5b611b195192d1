//! Calls that add something to what they are called on, each with each of its growths refused in turn.
use crate::digests::{Digest, add_groups, add_limits, add_log, add_set, add_table};
use crate::expect::made;
use ordup_limits::{Groups, LimitTable, Scope};
use ordup_log::Log;
use ordup_objects::{MessageSet, ObjectId, ObjectTable, Refusal};
use std::process::Abort;
use test_fixtures::{adding, expect, x, y};
use test_memory_fixtures::{Heap, Scarce};

/// A call that adds something to what it is called on.
///
/// Growths that were met, in the order of the calls: 4, 5, 1, 3 and 1, each of a first addition.
#[derive(Clone, Copy, Debug)]
enum Addition {
    Object,
    Group,
    Limit,
    Update,
    Change,
}

const ADDITIONS: [Addition; 5] = [
    Addition::Object,
    Addition::Group,
    Addition::Limit,
    Addition::Update,
    Addition::Change,
];

/// What the calls add to: a table without objects, no group of the objects x and y, no limit, a log without updates, and a set that
/// changes x.
#[derive(Drop)]
struct Tables<'a> {
    fresh: ObjectTable<Heap<'a>>,
    objects: ObjectTable<Heap<'a>>,
    groups: Groups<Heap<'a>>,
    limits: LimitTable<Heap<'a>>,
    log: Log<Heap<'a>>,
    set: MessageSet<Heap<'a>>,
}

fn make_tables<'a>(rt: &impl Abort, heap: Heap<'a>) -> Tables<'a> {
    heap.allow_all();
    let mut objects = ObjectTable::new(heap);
    expect!(rt; objects.declare(b"x", 0).is_ok());
    expect!(rt; objects.declare(b"y", 10).is_ok());
    let Ok(log) = Log::new(heap, &objects) else {
        panic!(rt; "there is no log")
    };
    let set = made(rt, test_fixtures::add(&objects, x(), 3));
    Tables {
        fresh: ObjectTable::new(heap),
        objects,
        groups: Groups::new(heap),
        limits: LimitTable::new(heap),
        log,
        set,
    }
}

/// Makes a call.
fn add(rt: &impl Abort, tables: &mut Tables<'_>, addition: Addition) -> Result<(), Refusal> {
    let Tables {
        fresh,
        objects,
        groups,
        limits,
        log,
        set,
    } = tables;
    match addition {
        Addition::Object => fresh.declare(b"z", 7).map(|_| ()),
        Addition::Group => groups
            .declare(objects, b"h", &[ObjectId::new(1)])
            .map(|_| ()),
        Addition::Limit => {
            expect!(rt; limits.entries().is_empty());
            limits.add(objects, groups, Scope::All, 5)
        }
        Addition::Update => {
            let update = made(rt, test_fixtures::add(objects, x(), 3));
            expect!(rt; update.are_known(log.objects()));
            log.append(update).map(|_| ())
        }
        Addition::Change => {
            expect!(rt; set.are_known(objects.len()));
            set.add(objects, adding(y(), 4))
        }
    }
}

/// Whether the call added what it should, and nothing else.
fn has_added(tables: &Tables<'_>, addition: Addition) -> bool {
    let counts = [
        tables.fresh.len() as u64,
        tables.groups.len() as u64,
        tables.limits.len() as u64,
        tables.log.len(),
        tables.set.changes().len() as u64,
    ];
    counts
        == match addition {
            Addition::Object => [1, 0, 0, 0, 1],
            Addition::Group => [0, 1, 0, 0, 1],
            Addition::Limit => [0, 0, 1, 0, 1],
            Addition::Update => [0, 0, 0, 1, 1],
            Addition::Change => [0, 0, 0, 0, 2],
        }
}

/// What the readers of the tables answer, with nothing allowed.
fn digest_of_tables(rt: &impl Abort, heap: Heap<'_>, tables: &Tables<'_>) -> Digest {
    heap.allow(0);
    let mut digest = Digest::new();
    add_table(&mut digest, &tables.fresh);
    add_table(&mut digest, &tables.objects);
    add_groups(&mut digest, &tables.groups);
    add_limits(&mut digest, &tables.limits);
    add_log(&mut digest, &tables.log, &tables.groups);
    add_set(&mut digest, &tables.set);
    expect!(rt; !heap.has_refused());
    digest
}

/// Makes a call with this count of growths allowed, and again with memory where one is refused: whether one was refused.
fn is_refused(
    rt: &impl Abort,
    heap: Heap<'_>,
    tables: &mut Tables<'_>,
    addition: Addition,
    allowed: u64,
) -> bool {
    let before = digest_of_tables(rt, heap, tables);
    heap.allow(allowed);
    let mut added = add(rt, tables, addition);
    let refused = heap.has_refused();
    if refused {
        expect!(rt; added == Err(Refusal::NoMemory), (addition, allowed));
        expect!(rt; digest_of_tables(rt, heap, tables) == before, (addition, allowed));
        heap.allow_all();
        added = add(rt, tables, addition);
    }
    expect!(rt; added.is_ok() && has_added(tables, addition), (addition, allowed));
    refused
}

/// How many growths a call meets, each of which is refused in turn.
fn growths_of_addition(rt: &impl Abort, heap: Heap<'_>, addition: Addition) -> u64 {
    for allowed in 0..100u64 {
        let mut tables = make_tables(rt, heap);
        let refused = is_refused(rt, heap, &mut tables, addition, allowed);
        drop(tables);
        if !refused {
            return allowed;
        }
    }
    panic!(rt; "{addition:?} has no end")
}

/// Refuses each growth of each addition in turn.
// shows: want of memory
#[test]
fn each_growth_of_each_addition_is_refused(rt: HostRuntime) {
    let scarce = Scarce::new(rt.alloc(), 0);
    for addition in ADDITIONS {
        let growths = growths_of_addition(&rt, &scarce, addition);
        expect!(&rt; growths > 0, addition);
    }
}
