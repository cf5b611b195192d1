//! Calls that copy or make something of what a primary holds, each with each of its growths refused in turn.
ghost use Rattle.std.specs.Prelude.{◌<◌, length};

use crate::digests::{Digest, add_groups, add_limits, add_log, add_primary, add_table};
use crate::expect::made;
use ordup_audit::Record;
use ordup_limits::{Groups, LagLedger, LimitTable};
use ordup_log::Log;
use ordup_objects::{MessageSet, ObjectTable, Refusal, Values};
use ordup_primary::Primary;
use ordup_record::record_of;
use ordup_rows::{RecordWriteFault, write_record};
use ordup_site::Site;
use std::process::Abort;
use test_fixtures::{a, adding, expect, x, y};
use test_memory_fixtures::{Heap, Scarce, grouped};

/// A call that copies or makes something of what a primary holds.
///
/// Growths that were met, in the order of the calls: 4, 5, 1, 1, 1, 9, 1, 1, 1, 3, 3, 2, 1, 1, 22 and 2. So the record's 22 are
/// those of the objects, the groups, the limits and the log, and 3 lists. The copy of a set of a single change, which stands in its
/// place, meets none.
#[derive(Clone, Copy, Debug)]
enum Call {
    CopyObjects,
    CopyGroups,
    CopyLimits,
    CopyMessageSet,
    CopySet,
    CopyPrefix,
    Postings,
    CopyValues,
    NewValues,
    NewLog,
    NewLedger,
    NewSite,
    NextFor,
    Marks,
    RecordOf,
    WriteRecord,
}

const CALLS: [Call; 16] = [
    Call::CopyObjects,
    Call::CopyGroups,
    Call::CopyLimits,
    Call::CopyMessageSet,
    Call::CopySet,
    Call::CopyPrefix,
    Call::Postings,
    Call::CopyValues,
    Call::NewValues,
    Call::NewLog,
    Call::NewLedger,
    Call::NewSite,
    Call::NextFor,
    Call::Marks,
    Call::RecordOf,
    Call::WriteRecord,
];

/// What the calls are made of: the primary after the lines of `GROUPED`, the initial values, and the record of a.
#[derive(Clone, Copy)]
struct Given<'g, 'a> {
    primary: &'g Primary<Heap<'a>>,
    values: &'g Values<Heap<'a>>,
    record: &'g Record<Heap<'a>>,
}

/// The record of a, by hand. Updates 1 and 2 weigh 6 and 1 on g, and update 3 weighs 7: a round at 2, and one at 3, of which a had
/// reported 2.
const RECORD: &[u8] = b"ordup,1,a,3
object,1,x,0
object,2,y,10
member,1,g,x
member,2,g,y
limit,1,group:g,6
change,1,1,add:x:3
change,1,2,add:y:3
change,2,1,add:y:1
change,3,1,add:x:4
change,3,2,add:y:3
report,3,2,-
round,1,2,-
round,2,3,-
window,1,0,2
window,2,2,3
";

fn copy_objects<'a>(heap: Heap<'a>, objects: &ObjectTable<Heap<'a>>) -> Result<bool, Refusal> {
    let copy = objects.copy(heap)?;
    let (mut of_copy, mut wanted) = (Digest::new(), Digest::new());
    add_table(&mut of_copy, &copy);
    add_table(&mut wanted, objects);
    drop(copy);
    Ok(of_copy == wanted)
}

fn copy_groups<'a>(heap: Heap<'a>, groups: &Groups<Heap<'a>>) -> Result<bool, Refusal> {
    let copy = groups.copy(heap)?;
    let (mut of_copy, mut wanted) = (Digest::new(), Digest::new());
    add_groups(&mut of_copy, &copy);
    add_groups(&mut wanted, groups);
    drop(copy);
    Ok(of_copy == wanted)
}

fn copy_limits<'a>(heap: Heap<'a>, limits: &LimitTable<Heap<'a>>) -> Result<bool, Refusal> {
    let copy = limits.copy(heap)?;
    let (mut of_copy, mut wanted) = (Digest::new(), Digest::new());
    add_limits(&mut of_copy, &copy);
    add_limits(&mut wanted, limits);
    drop(copy);
    Ok(of_copy == wanted)
}

/// Whether these are the changes of the first update.
fn is_first(set: &MessageSet<Heap<'_>>) -> bool {
    set.changes() == [adding(x(), 3), adding(y(), 3)].as_slice()
}

fn copy_message_set<'a>(heap: Heap<'a>, set: &MessageSet<Heap<'a>>) -> Result<bool, Refusal> {
    let copy = set.copy(heap)?;
    Ok(is_first(&copy))
}

fn copy_set(log: &Log<Heap<'_>>) -> Result<bool, Refusal>
    requires { 0 < length log.now.sets }
{
    let copy = log.copy_set(1)?;
    Ok(is_first(&copy))
}

fn copy_prefix<'a>(
    heap: Heap<'a>,
    log: &Log<Heap<'a>>,
    groups: &Groups<Heap<'a>>,
) -> Result<bool, Refusal> {
    let copy = log.copy_prefix(heap, log.len())?;
    let (mut of_copy, mut wanted) = (Digest::new(), Digest::new());
    add_log(&mut of_copy, &copy, groups);
    add_log(&mut wanted, log, groups);
    drop(copy);
    Ok(of_copy == wanted)
}

/// y weighs 3, then 1 and 3 more.
fn postings<'a>(heap: Heap<'a>, log: &Log<Heap<'a>>) -> Result<bool, Refusal> {
    let postings = log.postings(heap, y())?;
    let mut found = Digest::new();
    for (place, weight) in postings.as_slice() {
        found.add(*place);
        found.add(*weight);
    }
    drop(postings);
    Ok(found == Digest::of(&[1, 3, 2, 4, 3, 7]))
}

fn copy_values<'a>(heap: Heap<'a>, values: &Values<Heap<'a>>) -> Result<bool, Refusal> {
    let copy = values.copy(heap)?;
    Ok(copy.as_slice() == [0, 10].as_slice())
}

fn new_values<'a>(heap: Heap<'a>, objects: &ObjectTable<Heap<'a>>) -> Result<bool, Refusal> {
    let values = Values::initial(heap, objects)?;
    Ok(values.as_slice() == [0, 10].as_slice())
}

fn new_log<'a>(heap: Heap<'a>, objects: &ObjectTable<Heap<'a>>) -> Result<bool, Refusal> {
    let log = Log::new(heap, objects)?;
    let is_empty = log.len() == 0 && log.objects() == 2;
    drop(log);
    Ok(is_empty)
}

fn new_ledger<'a>(heap: Heap<'a>, limits: &LimitTable<Heap<'a>>) -> Result<bool, Refusal> {
    let ledger = LagLedger::new(heap, limits)?;
    let is_within = !ledger.over();
    drop(ledger);
    Ok(is_within)
}

fn new_site<'a>(heap: Heap<'a>, objects: &ObjectTable<Heap<'a>>) -> Result<bool, Refusal> {
    let site = Site::new(heap, objects)?;
    let is_first = site.applied() == 0 && site.values().as_slice() == [0, 10].as_slice();
    drop(site);
    Ok(is_first)
}

/// a has the first two updates.
fn next_for(primary: &Primary<Heap<'_>>) -> Result<bool, Refusal>
    requires { 0 < length primary.now.sites }
{
    let parcel = primary.next_for(a())?;
    let changes = [adding(x(), 4), adding(y(), 3)];
    Ok(parcel.number == 3 && parcel.set.changes() == changes.as_slice())
}

/// Two updates are acknowledged: 3 on x, and 3 + 1 on y.
fn marks(primary: &Primary<Heap<'_>>) -> Result<bool, Refusal> {
    let marks = primary.marks()?;
    Ok(marks.as_slice() == [3, 4].as_slice())
}

fn record_again<'a>(
    heap: Heap<'a>,
    primary: &Primary<Heap<'a>>,
    wanted: &Record<Heap<'a>>,
) -> Result<bool, Refusal> {
    let record = record_of(heap, primary, a())?;
    let is_same = record.same(wanted);
    record.discard();
    Ok(is_same)
}

/// Where memory is refused, nothing was written.
fn write_again<'a>(
    rt: &(impl Abort + AllocGlobal),
    heap: Heap<'a>,
    record: &Record<Heap<'a>>,
) -> Result<bool, Refusal> {
    let mut text: Vec<u8> = Vec::new(rt.alloc());
    match write_record(heap, record, &mut text) {
        Ok(()) => Ok(text.as_slice() == RECORD),
        Err(fault) => {
            expect!(rt; fault == RecordWriteFault::NoMemory);
            expect!(rt; text.is_empty());
            Err(Refusal::NoMemory)
        }
    }
}

/// Makes a call: whether its answer is the usual one.
fn make<'a>(
    rt: &(impl Abort + AllocGlobal),
    heap: Heap<'a>,
    given: Given<'_, 'a>,
    call: Call,
) -> Result<bool, Refusal> {
    let primary = given.primary;
    primary.keeps();
    let (setup, log) = (primary.setup(), primary.log());
    expect!(rt; setup.sites() > 0);
    expect!(rt; log.len() == 3);
    let limits = setup.limits(a());
    match call {
        Call::CopyObjects => copy_objects(heap, setup.objects()),
        Call::CopyGroups => copy_groups(heap, setup.groups()),
        Call::CopyLimits => copy_limits(heap, limits),
        Call::CopyMessageSet => copy_message_set(heap, log.set(1)),
        Call::CopySet => copy_set(log),
        Call::CopyPrefix => copy_prefix(heap, log, setup.groups()),
        Call::Postings => postings(heap, log),
        Call::CopyValues => copy_values(heap, given.values),
        Call::NewValues => new_values(heap, setup.objects()),
        Call::NewLog => new_log(heap, setup.objects()),
        Call::NewLedger => new_ledger(heap, limits),
        Call::NewSite => new_site(heap, setup.objects()),
        Call::NextFor => next_for(primary),
        Call::Marks => marks(primary),
        Call::RecordOf => record_again(heap, primary, given.record),
        Call::WriteRecord => write_again(rt, heap, given.record),
    }
}

/// What the readers of a primary answer, with nothing allowed.
pub(crate) fn digest_of(rt: &impl Abort, heap: Heap<'_>, primary: &Primary<Heap<'_>>) -> Digest {
    heap.allow(0);
    let mut digest = Digest::new();
    add_primary(&mut digest, primary);
    expect!(rt; !heap.has_refused());
    digest
}

/// How many growths a call meets, each of which is refused in turn.
fn growths_of<'a>(
    rt: &(impl Abort + AllocGlobal),
    heap: Heap<'a>,
    given: Given<'_, 'a>,
    call: Call,
) -> u64 {
    let before = digest_of(rt, heap, given.primary);
    for allowed in 0..100u64 {
        heap.allow(allowed);
        let made = make(rt, heap, given, call);
        if !heap.has_refused() {
            expect!(rt; made == Ok(true), (call, allowed));
            return allowed;
        }
        expect!(rt; made == Err(Refusal::NoMemory), (call, allowed));
        expect!(rt; digest_of(rt, heap, given.primary) == before, (call, allowed));
        heap.allow_all();
        expect!(rt; make(rt, heap, given, call) == Ok(true), (call, allowed));
    }
    panic!(rt; "{call:?} has no end")
}

/// Makes each call over a primary.
fn make_each<'a>(rt: &(impl Abort + AllocGlobal), heap: Heap<'a>, primary: &Primary<Heap<'a>>) {
    heap.allow_all();
    let values = made(rt, Values::initial(heap, primary.setup().objects()));
    let record = made(rt, record_of(heap, primary, a()));
    let given = Given {
        primary,
        values: &values,
        record: &record,
    };
    for call in CALLS {
        let growths = growths_of(rt, heap, given, call);
        expect!(rt; growths > 0, call);
    }
    drop(values);
    record.discard();
}

/// Refuses each growth of each call over a primary in turn.
// shows: want of memory
#[test]
fn each_growth_of_what_is_made_of_a_primary_is_refused(rt: HostRuntime) {
    let scarce = Scarce::new(rt.alloc(), u64::MAX);
    let world = made(&rt, grouped(&scarce));
    make_each(&rt, &scarce, world.primary());
    world.discard();
}
