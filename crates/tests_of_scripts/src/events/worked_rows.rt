//! Worked rows of message sets, logs, ledgers and limits, by the calls themselves. The numbers are worked out by hand.
//!
//! Tests drop by a call what they declared, which is proved once for all of them: docs/DECISIONS.md, Tests.
ghost use Rattle.std.specs.Prelude.{◌≡◌, ◌<◌, IfOk};
ghost use Rattle.ordup_limits.specs.Entries.{HoldFrom};
ghost use Rattle.ordup_limits.specs.Ledgers.{StandsFor};

use crate::events::fixtures::{on_x, swap};
use crate::expect::made;
use crate::promises::end_value;
use ordup_limits::{LagLedger, LimitTable};
use ordup_log::{Groups, Log, Scope};
use ordup_objects::{Change, MessageSet, ObjectId, ObjectTable, Op, Refusal};
use ordup_primary::{Primary, Setup};
use std::alloc::Global;
use std::process::Abort;
use std::test::Fail;
use test_fixtures::{a, expect, expect_eq, propose_add, set_of, set_of_one, started, x, y};

/// The objects x at this value and y at 10, and a log over them.
fn x_at_and_y(rt: &impl Abort, alloc: Global, value: i64) -> (ObjectTable, Log) {
    let mut objects = ObjectTable::new(alloc);
    expect!(rt; objects.declare(b"x", value).is_ok());
    expect!(rt; objects.declare(b"y", 10).is_ok());
    let Ok(log) = Log::new(alloc, &objects) else {
        panic!(rt; "there is no memory for a log")
    };
    (objects, log)
}

/// Appends a message set.
fn append(log: &mut Log, set: MessageSet) -> Result<u64, Refusal> {
    if !set.are_known(log.objects()) {
        return Err(Refusal::UnknownObject);
    }
    log.append(set)
}

/// Appends the update that does this to x.
fn append_to_x(
    rt: &impl Abort,
    objects: &ObjectTable,
    log: &mut Log,
    op: Op,
) -> Result<u64, Refusal> {
    append(
        log,
        made(rt, set_of_one(objects, Change { object: x(), op })),
    )
}

/// Appends the updates that add these numbers to x.
fn add_each(
    rt: &impl Abort,
    objects: &ObjectTable,
    log: &mut Log,
    numbers: &[i64],
) -> Result<(), Refusal> {
    for n in numbers {
        append_to_x(rt, objects, log, Op::Add(*n))?;
    }
    Ok(())
}

/// What the span between two places weighs on x, on y, on all and on the count.
fn span(rt: &impl Abort, log: &Log, groups: &Groups, from: u64, to: u64) -> [u64; 4] {
    expect!(rt; log.objects() == 2);
    expect!(rt; from <= to);
    expect!(rt; to <= log.len());
    [
        log.span(Scope::Object(x()), groups, from, to),
        log.span(Scope::Object(y()), groups, from, to),
        log.span(Scope::All, groups, from, to),
        log.span(Scope::Count, groups, from, to),
    ]
}

/// What the first update weighs on x and on y.
fn first_weights(rt: &impl Abort, log: &Log, groups: &Groups) -> [u64; 2] {
    expect!(rt; log.objects() == 2);
    expect!(rt; log.len() > 0);
    [
        log.weight(1, Scope::Object(x()), groups),
        log.weight(1, Scope::Object(y()), groups),
    ]
}

/// The values of x and y after all updates.
fn end(rt: &impl Abort, log: &Log) -> [i64; 2] {
    expect!(rt; log.objects() == 2);
    [end_value(log, x()), end_value(log, y())]
}

/// Weighs the update in which x takes the value of y, and y that of x.
// shows: Log::weight weight; Log::end_value
#[test]
fn a_swap_weighs_the_way_of_each_value(rt: HostRuntime) {
    let (objects, mut log) = x_at_and_y(&rt, rt.alloc(), 0);
    let swap = swap(&rt, rt.alloc(), &objects);
    expect_eq!(&rt; append(&mut log, swap), Ok(1));
    let groups = Groups::new(rt.alloc());
    // x from 0 to 10, and y from 10 to 0.
    expect_eq!(&rt; first_weights(&rt, &log, &groups), [10, 10]);
    expect_eq!(&rt; end(&rt, &log), [10, 0]);
    drop((objects, log));
}

/// Weighs the greatest change of one object, after one that is out of range.
// shows: Log::weight weight; Log::end_value
#[test]
fn an_update_of_one_object_weighs_2000000000_at_most(rt: HostRuntime) {
    let (objects, mut log) = x_at_and_y(&rt, rt.alloc(), 1_000_000_000);
    expect_eq!(&rt; append_to_x(&rt, &objects, &mut log, Op::Add(1)), Err(Refusal::OutOfRange));
    expect_eq!(&rt; append_to_x(&rt, &objects, &mut log, Op::Mul(-1)), Ok(1));
    let groups = Groups::new(rt.alloc());
    // x from 1,000,000,000 to -1,000,000,000.
    expect_eq!(&rt; first_weights(&rt, &log, &groups), [2_000_000_000, 0]);
    expect_eq!(&rt; end(&rt, &log), [-1_000_000_000, 10]);
    drop((objects, log));
}

/// Weighs the spans of three updates of x: up by 3, down by 3, and by 0.
// shows: Log::span span
#[test]
fn spans_add_up_the_way_and_not_the_net_change(rt: HostRuntime) {
    let (objects, mut log) = x_at_and_y(&rt, rt.alloc(), 0);
    expect_eq!(&rt; add_each(&rt, &objects, &mut log, &[3, -3, 0]), Ok(()));
    let groups = Groups::new(rt.alloc());
    // 3 + 3 + 0, then 3 + 0, and 0.
    expect_eq!(&rt; span(&rt, &log, &groups, 0, 3), [6, 0, 6, 3]);
    expect_eq!(&rt; span(&rt, &log, &groups, 1, 3), [3, 0, 3, 2]);
    expect_eq!(&rt; span(&rt, &log, &groups, 2, 3), [0, 0, 0, 1]);
    expect_eq!(&rt; span(&rt, &log, &groups, 3, 3), [0, 0, 0, 0]);
    drop((objects, log));
}

/// Appends the update in which x becomes 7 and y 1,000,000,010.
fn append_out_of_range(
    rt: &impl Abort,
    alloc: Global,
    objects: &ObjectTable,
    log: &mut Log,
) -> Result<u64, Refusal> {
    let changes = [
        Change {
            object: x(),
            op: Op::Set(7),
        },
        Change {
            object: y(),
            op: Op::Add(1_000_000_000),
        },
    ];
    append(log, made(rt, set_of(alloc, objects, &changes)))
}

/// Appends an update of which one change is out of range.
// shows: Log::append refused err
#[test]
fn a_refused_update_leaves_the_log(rt: HostRuntime) {
    let (objects, mut log) = x_at_and_y(&rt, rt.alloc(), 0);
    let refused = append_out_of_range(&rt, rt.alloc(), &objects, &mut log);
    expect_eq!(&rt; refused, Err(Refusal::OutOfRange));
    expect_eq!(&rt; log.len(), 0);
    expect_eq!(&rt; end(&rt, &log), [0, 10]);
    drop((objects, log));
}

/// Appends 10,000 updates, of which those at odd places add 1 to x, and those at even ones take it away.
fn go_to_and_fro(rt: &impl Abort, objects: &ObjectTable, log: &mut Log) -> Result<(), Refusal> {
    for _pair in 0..5_000 {
        add_each(rt, objects, log, &[1, -1])?;
    }
    Ok(())
}

/// How many postings an object has, and the last of them.
fn postings_of(
    rt: &(impl Abort + AllocGlobal),
    log: &Log,
    object: ObjectId,
) -> (usize, Option<(u64, u64)>) {
    let Ok(postings) = log.postings(rt.alloc(), object) else {
        panic!(rt; "there is no memory for postings")
    };
    let told = (postings.len(), postings.last().copied());
    drop(postings);
    told
}

/// Weighs the spans of 10,000 updates of x, and counts its postings.
// shows: Log::postings postings; Log::span span
#[test]
fn each_update_that_moves_an_object_has_a_posting(rt: HostRuntime) {
    let (objects, mut log) = x_at_and_y(&rt, rt.alloc(), 0);
    expect_eq!(&rt; go_to_and_fro(&rt, &objects, &mut log), Ok(()));
    let groups = Groups::new(rt.alloc());
    expect_eq!(&rt; span(&rt, &log, &groups, 0, 10_000), [10_000, 0, 10_000, 10_000]);
    expect_eq!(&rt; span(&rt, &log, &groups, 2_500, 7_500), [5_000, 0, 5_000, 5_000]);
    expect_eq!(&rt; end(&rt, &log), [0, 10]);
    expect_eq!(&rt; postings_of(&rt, &log, x()), (10_000, Some((10_000, 10_000))));
    expect_eq!(&rt; postings_of(&rt, &log, y()), (0, None));
    drop((objects, log));
}

/// A table of this count of objects at 0: o0, o1 and on.
fn many_objects(rt: &impl Abort, alloc: Global, count: u16) -> ObjectTable {
    let mut objects = ObjectTable::new(alloc);
    for index in 0..count {
        let Ok(name) = format!(in alloc; "o{index}") else {
            panic!(rt; "there is no memory for a name")
        };
        expect!(rt; objects.declare(name.as_bytes(), 0).is_ok());
    }
    objects
}

/// The changes that add 1 to each of this count of objects.
fn many_changes(alloc: Global, count: u16) -> Result<Vec<Change>, Refusal> {
    let mut changes = Vec::new(alloc);
    for index in 0..count {
        let change = Change {
            object: ObjectId::new(index),
            op: Op::Add(1),
        };
        changes.push(change).or(Err(Refusal::NoMemory))?;
    }
    Ok(changes)
}

/// How many changes the set has that changes this count of objects.
fn size_of_set(rt: &impl Abort, alloc: Global, count: u16) -> Result<usize, Refusal> {
    let changes = many_changes(alloc, count)?;
    let objects = many_objects(rt, alloc, count);
    let set = MessageSet::new(&objects, changes);
    drop(objects);
    Ok(set?.changes().len())
}

/// Makes sets of 64 and 65 changes, each of an object of its own.
// shows: MessageSet::new allowed refused
#[test]
fn a_message_set_has_at_most_64_changes(rt: HostRuntime) {
    expect_eq!(&rt; size_of_set(&rt, rt.alloc(), 64), Ok(64));
    expect_eq!(&rt; size_of_set(&rt, rt.alloc(), 65), Err(Refusal::TooMany));
}

/// A ledger of a at the places 0 and 0 of the log.
fn ledger_of_a(rt: &impl Abort, alloc: Global, primary: &Primary) -> Result<LagLedger, Refusal>
    ensures places { IfOk result (λ ledger. (ledger.reported ≡ 0) × (ledger.extended ≡ 0)) }
    ensures stands { IfOk result (λ ledger. StandsFor ledger primary.now.log primary.now.setup.groups) }
{
    let setup = primary.setup();
    expect!(rt; setup.sites() > 0);
    expect!(rt; primary.log().objects() == setup.objects().len());
    LagLedger::new(alloc, setup.limits(a()))
}

/// Whether a is over at the start, and then with one more update added or reported: the first and the second are added, the first
/// one and then all three are reported, and the third is added.
fn over_on_the_way(
    rt: &impl Abort,
    alloc: Global,
    primary: &Primary,
) -> Result<[bool; 6], Refusal> {
    let (log, groups) = (primary.log(), primary.setup().groups());
    expect!(rt; log.len() == 3);
    let mut ledger = ledger_of_a(rt, alloc, primary)?;
    let at_first = ledger.over();
    ledger.extend(log, groups, 1);
    let with_one = ledger.over();
    ledger.extend(log, groups, 2);
    let with_two = ledger.over();
    ledger.reported(log, groups, 1);
    let without_one = ledger.over();
    ledger.reported(log, groups, 3);
    let passed = ledger.over();
    ledger.extend(log, groups, 3);
    Ok([
        at_first,
        with_one,
        with_two,
        without_one,
        passed,
        ledger.over(),
    ])
}

/// Proposes three updates of x: up by 3, down by 4, and up by 2.
fn propose_three(rt: &impl Abort, primary: &mut Primary) {
    expect_eq!(rt; propose_add(primary, 3), Ok(1));
    expect_eq!(rt; propose_add(primary, -4), Ok(2));
    expect_eq!(rt; propose_add(primary, 2), Ok(3));
}

/// Extends a ledger by updates that go up and down, and reports them to it, at last past its end.
// shows: LagLedger::extend stands; LagLedger::reported stands; LagLedger::over
#[test]
fn a_ledger_weighs_the_way_that_is_not_reported(rt: HostRuntime) -> Result<(), Fail> {
    let alloc = rt.alloc();
    let mut primary = started(alloc, &[("a", 4, Some((on_x(), 5)))])?;
    propose_three(&rt, &mut primary);
    let over = over_on_the_way(&rt, alloc, &primary);
    // x goes 0, 3, -1, 1, so the updates weigh 3, 4 and 2, and 5 is allowed.
    // Not reported are: none, 0; the first, 3; the first two, 3 + 4 = 7, though x has moved by 1; the second, 7 - 3 = 4; none of
    // those that were added, 0, since the report passes them; and with the third added none, 9 - 9 = 0.
    expect_eq!(&rt; over, Ok([false, false, true, false, false, false]));
    primary.discard();
    Ok(())
}

/// Why a change of a limit to 5 from a place on is refused, if it is.
fn refusal_of_change(
    table: &mut LimitTable,
    objects: &ObjectTable,
    groups: &Groups,
    scope: Scope,
    place: u64,
) -> Option<Refusal>
    requires begun { 0 < place }
    requires last { HoldFrom place table.old }
    ensures last { HoldFrom place table.new }
{
    match table.change(objects, groups, scope, 5, place) {
        Ok(()) => None,
        Err(refusal) => Some(refusal),
    }
}

/// Changes the limit on x at each place from 2 to 1,025.
fn change_at_each_place(
    rt: &impl Abort,
    table: &mut LimitTable,
    objects: &ObjectTable,
    groups: &Groups,
)
    requires { HoldFrom 1 table.old }
    ensures { HoldFrom 1025 table.new }
{
    for place in 2..1_026 {
        expect_eq!(rt; refusal_of_change(table, objects, groups, on_x(), place), None, place);
    }
}

/// Declares 63 objects, and a site with limits on 62 of them, on all and on the count: 64 in all.
fn declare_64_limits(rt: &impl Abort, setup: &mut Setup) {
    for number in 0..63 {
        let name = [b'x', b'0' + number / 10, b'0' + number % 10];
        expect!(rt; setup.object(&name, 0).is_ok());
    }
    expect!(rt; setup.site(b"a", 1).is_ok());
    for number in 0..62 {
        let scope = Scope::Object(ObjectId::new(number));
        expect!(rt; setup.limit(a(), scope, 5).is_ok());
    }
    expect!(rt; setup.limit(a(), Scope::All, 5).is_ok());
    expect!(rt; setup.limit(a(), Scope::Count, 5).is_ok());
}

/// Fills a table of 64 limits by changes of one of them, at 1,024 places more.
fn expect_full(rt: &impl Abort, alloc: Global, setup: &Setup) {
    expect!(rt; setup.sites() > 0);
    let (objects, groups) = (setup.objects(), setup.groups());
    let Ok(mut table) = setup.limits(a()).copy(alloc) else {
        panic!(rt; "there is no memory for a table")
    };
    let another = Scope::Object(ObjectId::new(62));
    let of_a_65th_scope = refusal_of_change(&mut table, objects, groups, another, 1);
    expect_eq!(rt; of_a_65th_scope, Some(Refusal::TooMany));
    change_at_each_place(rt, &mut table, objects, groups);
    expect_eq!(rt; table.len(), 64);
    expect_eq!(rt; table.entries().len(), 1_088);
    let of_another = refusal_of_change(&mut table, objects, groups, Scope::All, 1_025);
    expect_eq!(rt; of_another, Some(Refusal::TooMany));
    // The entry of that place is replaced.
    let at_the_last_place = refusal_of_change(&mut table, objects, groups, on_x(), 1_025);
    expect_eq!(rt; at_the_last_place, None);
    let at_the_next_place = refusal_of_change(&mut table, objects, groups, on_x(), 1_026);
    expect_eq!(rt; at_the_next_place, Some(Refusal::TooMany));
    expect_eq!(rt; table.len(), 64);
    expect_eq!(rt; table.entries().len(), 1_088);
    drop(table);
}

/// Fills a table of limits: with 64 scopes, and then with 1,088 entries.
// shows: LimitTable::change allowed refused
#[test]
fn a_table_has_64_scopes_and_1088_entries(rt: HostRuntime) {
    let mut setup = Setup::new(rt.alloc());
    declare_64_limits(&rt, &mut setup);
    expect_full(&rt, rt.alloc(), &setup);
    drop(setup);
}
