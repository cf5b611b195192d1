//! What the readers of a value answer, all of them, as one number. None of them takes memory, and none of these functions owns any.
ghost use Rattle.std.specs.Prelude.{◌<◌, length};

use ordup_limits::{GroupId, Groups, LimitTable, Scope};
use ordup_log::Log;
use ordup_objects::{Change, MessageSet, Moved, ObjectId, ObjectTable, Op, SiteId};
use ordup_primary::{Primary, Setup};
use std::alloc::Allocator;

/// Numbers and texts, mixed in their order. Two values whose readers differ have the same digest by chance alone.
#[derive(Clone, Copy, Debug, PartialEq, Eq)]
pub(crate) struct Digest {
    mixed: u64,
}

impl Digest {
    pub(crate) fn new() -> Self {
        Digest { mixed: 0 }
    }

    /// These numbers, mixed.
    pub(crate) fn of(numbers: &[u64]) -> Self {
        let mut digest = Digest::new();
        for number in numbers {
            digest.add(*number);
        }
        digest
    }

    /// Adds a number, by the step of the hash of Fowler, Noll and Vo.
    pub(crate) fn add(&mut self, number: u64) {
        self.mixed = (self.mixed.rotate_left(23) ^ number).wrapping_mul(0x0000_0100_0000_01B3);
    }

    /// Adds a value.
    pub(crate) fn add_value(&mut self, value: i64) {
        self.add(value.abs_diff(i64::MIN));
    }

    /// Adds a text with its length.
    pub(crate) fn add_bytes(&mut self, bytes: &[u8]) {
        self.add(bytes.len() as u64);
        for byte in bytes {
            self.add(u64::from(*byte));
        }
    }

    /// Adds a list of numbers with its length.
    fn add_numbers(&mut self, numbers: &[u64]) {
        self.add(numbers.len() as u64);
        for number in numbers {
            self.add(*number);
        }
    }

    /// Adds a list of moves.
    fn add_moves(&mut self, moves: &[Moved]) {
        self.add(moves.len() as u64);
        for moved in moves {
            self.add(moved.object.index() as u64);
            self.add_value(i64::from(moved.value));
            self.add(u64::from(moved.distance));
        }
    }

    /// Adds a list of decisions, each with what a site had reported.
    fn add_changes(&mut self, changes: &[(u32, u32)]) {
        self.add(changes.len() as u64);
        for change in changes {
            self.add(u64::from(change.0));
            self.add(u64::from(change.1));
        }
    }

    /// Adds a list of objects.
    fn add_objects(&mut self, objects: &[ObjectId]) {
        self.add(objects.len() as u64);
        for object in objects {
            self.add(object.index() as u64);
        }
    }

    fn add_scope(&mut self, scope: Scope) {
        match scope {
            Scope::Object(object) => self.add(object.index() as u64),
            Scope::Group(group) => self.add(1_000 + group.index() as u64),
            Scope::All => self.add(2_000),
            Scope::Count => self.add(3_000),
        }
    }

    fn add_op(&mut self, op: Op) {
        self.add(match op {
            Op::Add(_) => 1,
            Op::Set(_) => 2,
            Op::Mul(_) => 3,
            Op::Max(_) => 4,
            Op::Min(_) => 5,
            Op::Take(_) => 6,
        });
        if let Some(number) = op.number() {
            self.add_value(number);
        }
        if let Some(source) = op.source() {
            self.add(source.index() as u64);
        }
    }

    fn add_change(&mut self, change: &Change) {
        self.add(change.object.index() as u64);
        self.add_op(change.op);
    }
}

/// What the readers of a message set answer.
pub(crate) fn add_set<A: Allocator + Copy>(digest: &mut Digest, set: &MessageSet<A>) {
    digest.add(set.changes().len() as u64);
    for change in set.changes() {
        digest.add_change(change);
    }
}

/// What the readers of a table of objects answer.
pub(crate) fn add_table<A: Allocator + Copy>(digest: &mut Digest, objects: &ObjectTable<A>) {
    digest.add(objects.len() as u64);
    for index in 0..objects.len() {
        let object = ObjectId::new(index as u16);
        digest.add_bytes(objects.name(object).as_bytes());
        digest.add_value(objects.initial(object));
    }
    for name in [b"x", b"y", b"z"] {
        if let Some(object) = objects.find(name) {
            digest.add(object.index() as u64);
        }
    }
}

/// What the readers of groups answer.
pub(crate) fn add_groups<A: Allocator + Copy>(digest: &mut Digest, groups: &Groups<A>) {
    digest.add(groups.len() as u64);
    for index in 0..groups.len() {
        let group = GroupId::new(index as u8);
        digest.add_bytes(groups.name(group).as_bytes());
        digest.add_objects(groups.members(group));
    }
    for name in [b"g", b"h"] {
        if let Some(group) = groups.find(name) {
            digest.add(group.index() as u64);
        }
    }
}

/// What the readers of limits answer.
pub(crate) fn add_limits<A: Allocator + Copy>(digest: &mut Digest, limits: &LimitTable<A>) {
    digest.add(limits.len() as u64);
    for index in 0..limits.len() {
        let (scope, amount) = limits.get(index);
        digest.add_scope(scope);
        digest.add(amount);
    }
    for entry in limits.entries() {
        digest.add_scope(entry.limit.scope);
        digest.add(entry.limit.amount);
        digest.add(entry.place);
    }
}

/// What the readers of declarations answer.
pub(crate) fn add_setup<A: Allocator + Copy>(digest: &mut Digest, setup: &Setup<A>) {
    add_table(digest, setup.objects());
    add_groups(digest, setup.groups());
    digest.add(u64::from(setup.is_ready()));
    digest.add(setup.sites() as u64);
    for index in 0..setup.sites() as u8 {
        let site = SiteId::new(index);
        digest.add_bytes(setup.site_name(site).as_bytes());
        digest.add(setup.capacity(site));
        add_limits(digest, setup.limits(site));
    }
    for name in [b"a", b"b"] {
        if let Some(site) = setup.find_site(name) {
            digest.add(site.index() as u64);
        }
    }
}

/// What the readers of a log answer of one update.
fn add_update<A: Allocator + Copy>(
    digest: &mut Digest,
    log: &Log<A>,
    groups: &Groups<A>,
    index: u64,
)
    requires { index < length log.now.sets }
{
    // For the proof: there are few enough updates for the number to fit.
    let _updates = log.len();
    let number = index + 1;
    add_set(digest, log.set(number));
    digest.add_moves(log.moves(number));
    digest.add(log.weight(number, Scope::All, groups));
    digest.add(log.span(Scope::All, groups, 0, number));
    digest.add(log.span(Scope::Count, groups, 0, number));
}

/// What the readers of a log answer.
pub(crate) fn add_log<A: Allocator + Copy>(digest: &mut Digest, log: &Log<A>, groups: &Groups<A>) {
    digest.add(log.len());
    for index in 0..log.len() {
        add_update(digest, log, groups, index);
    }
    digest.add(log.objects() as u64);
    for index in 0..log.objects().min(256) {
        let object = ObjectId::new(index as u16);
        digest.add_value(log.end_value(object));
        digest.add(log.running_weight(object, log.len()));
    }
}

/// What the readers of a primary answer of one site.
fn add_site<A: Allocator + Copy>(digest: &mut Digest, primary: &Primary<A>, site: SiteId)
    requires { site < length primary.now.sites }
{
    digest.add(primary.sent(site));
    digest.add(primary.reported(site));
    add_limits(digest, primary.limits(site));
    for index in 0..primary.decided() {
        digest.add(primary.reported_at(site, index + 1));
    }
    digest.add_changes(primary.report_changes(site));
    digest.add_numbers(primary.rounds(site));
    for window in primary.windows(site) {
        digest.add(window.from);
        digest.add(window.to);
    }
}

/// What the readers of a primary answer.
pub(crate) fn add_primary<A: Allocator + Copy>(digest: &mut Digest, primary: &Primary<A>) {
    let setup = primary.setup();
    add_setup(digest, setup);
    add_log(digest, primary.log(), setup.groups());
    digest.add(primary.acked());
    digest.add(primary.decided());
    for index in 0..setup.sites() as u8 {
        add_site(digest, primary, SiteId::new(index));
    }
}
