ghost use Rattle.std.specs.Prelude.{◌≡◌, ◌≤◌, ◌<◌, ◌↔◌, ℕ, IsTrue, length};

use crate::record_view::RecordView;
use crate::report_change::{ReportChange, reported_at};
use crate::report_changes::ReportChanges;
use crate::same;
use ordup_limits::{Groups, LimitTable};
use ordup_log::Log;
use ordup_objects::{MessageSet, Name, ObjectTable};
use ordup_rounds::Window;
use std::alloc::{Allocator, Global};
use std::marker::Model;

/// What a record is made of.
#[derive(Drop)]
pub struct RecordParts<A: Allocator + Copy = Global> {
    /// The name of the site.
    pub site: Name,
    /// The objects of the store.
    pub objects: ObjectTable<A>,
    /// The groups of the store.
    pub groups: Groups<A>,
    /// The limits of the site.
    pub limits: LimitTable<A>,
    /// The decided updates up to the first that is not legal.
    pub log: Log<A>,
    /// The decided updates from the first that is not legal on.
    pub rest: Vec<MessageSet<A>, A>,
    /// The decisions at which the site had reported more than at the one before.
    pub reports: Vec<ReportChange, A>,
    /// The places of the rounds, in order.
    pub rounds: Vec<u64, A>,
    /// The windows, in the order of the rounds.
    pub windows: Vec<Window, A>,
}

/// What an auditor has of a site: the updates that are decided, the limits of the site, what it had reported at each
/// decision, its rounds, and a window for each round.
///
/// Nothing in a record has to be true: [`check`](crate::check) finds out whether it shows that the rounds are the fewest.
#[derive(Drop)]
pub struct Record<A: Allocator + Copy = Global> {
    parts: RecordParts<A>,
}

impl<A: Allocator + Copy> Model for Record<A> {
    ghost use Rattle.ordup_audit.specs.Records.{RecordState};

    ghost Value = { RecordState };

    ghost use Rattle.ordup_audit.specs.RecordInside.{state_of, AreParts};

    ghost view = { λ r. state_of r.parts };

    ghost invariant = { λ r. AreParts r.parts };
}

impl<A: Allocator + Copy> RecordParts<A> {
    /// Gives the memory of the parts back, as where they go out of scope.
    pub fn discard(self) {
        drop(self);
    }
}

impl<A: Allocator + Copy> Record<A> {
    ghost use Rattle.ordup_objects.specs.Serial.{set_at, IsLegalHistory};
    ghost use Rattle.ordup_audit.specs.Records.{IsRecord, history_of, report_at};
    ghost use Rattle.ordup_audit.specs.RecordInside.{state_of, AreParts};
    ghost use Rattle.ordup_audit.specs.Validity.{IsLegalPrefix};

    // promise: the readers answer the parts of a record, which are complete (`IsRecord`)
    /// The record of these parts.
    pub fn from_parts(parts: RecordParts<A>) -> Self
        requires { AreParts parts }
        ensures { result ≡ state_of parts }
    {
        Record { parts }
    }

    // promise: a lent record answers its parts
    /// All parts of the record, lent.
    pub fn view(&self) -> RecordView<'_, A>
        ensures { result ≡ self.now }
    {
        let parts = &self.parts;
        RecordView {
            site: &parts.site,
            objects: &parts.objects,
            groups: &parts.groups,
            limits: &parts.limits,
            log: &parts.log,
            logged: parts.log.len(),
            rest: parts.rest.as_slice(),
            reports: ReportChanges::Changes(parts.reports.as_slice()),
            rounds: parts.rounds.as_slice(),
            windows: parts.windows.as_slice(),
        }
    }

    /// The allocator that the record's memory is of.
    pub fn allocator(&self) -> A {
        *self.parts.reports.allocator()
    }

    // promise: as Record::from_parts
    /// The name of the site.
    pub fn site(&self) -> &Name
        ensures { result.now ≡ self.now.site }
    {
        &self.parts.site
    }

    // promise: as Record::from_parts
    /// The objects of the store, with their initial values.
    pub fn objects(&self) -> &ObjectTable<A>
        ensures { result.now ≡ self.now.objects }
    {
        &self.parts.objects
    }

    // promise: as Record::from_parts
    /// The groups of the store.
    pub fn groups(&self) -> &Groups<A>
        ensures { result.now ≡ self.now.groups }
    {
        &self.parts.groups
    }

    // promise: as Record::from_parts
    /// The limits of the site.
    pub fn limits(&self) -> &LimitTable<A>
        ensures { result.now ≡ self.now.limits }
    {
        &self.parts.limits
    }

    // promise: as Record::from_parts
    /// What each record keeps, for the proofs of its users. It does nothing.
    #[inline(always)]
    pub fn keeps(&self)
        ensures { IsRecord self.now }
    {
        let _ = &self.parts;
    }

    // promise: as Record::from_parts
    /// How many updates are decided.
    pub fn decided(&self) -> u64
        ensures decided { result ≡ length self.now.sets }
        ensures sound { IsRecord self.now }
    {
        self.parts.log.len() + self.parts.rest.len() as u64
    }

    // promise: as Record::from_parts
    /// The message set of the decided update with this number, counted from 1.
    pub fn set(&self, number: u64) -> &MessageSet<A>
        requires first { 0 < number }
        requires last { number ≤ length self.now.sets }
        ensures { result.now ≡ set_at (history_of self.now) number }
    {
        let legal = self.parts.log.len();
        if number <= legal {
            return self.parts.log.set(number);
        }
        &self.parts.rest[(number - legal) as usize - 1]
    }

    // promise: as Record::from_parts
    /// The decided updates up to the first that is not legal after those before it.
    pub fn log(&self) -> &Log<A>
        ensures front { IsLegalPrefix self.now result.now }
        ensures whole { IsLegalHistory (history_of self.now) → result.now ≡ history_of self.now }
    {
        self.parts.log.keeps();
        &self.parts.log
    }

    // promise: as Record::from_parts
    /// Whether the updates are legal one after the other.
    pub fn is_legal(&self) -> bool
        ensures { IsTrue result ↔ IsLegalHistory (history_of self.now) }
    {
        self.parts.log.keeps();
        self.parts.rest.is_empty()
    }

    // promise: as Record::from_parts
    /// The decisions at which the site had reported more than at the one before, in order.
    pub fn reports(&self) -> &[ReportChange]
        ensures { result.now ≡ self.now.reports }
    {
        self.parts.reports.as_slice()
    }

    // promise: as Record::from_parts
    /// What the site had reported at the decision of a place, 0 before the first decision.
    pub fn reported_at(&self, place: u64) -> u64
        ensures { result ≡ report_at self.now.reports place }
    {
        reported_at(self.parts.reports.as_slice(), place)
    }

    // promise: as Record::from_parts
    /// The places of the rounds, in order.
    pub fn rounds(&self) -> &[u64]
        ensures { result.now ≡ self.now.rounds }
    {
        self.parts.rounds.as_slice()
    }

    // promise: as Record::from_parts
    /// The windows, in the order of the rounds.
    pub fn windows(&self) -> &[Window]
        ensures { result.now ≡ self.now.windows }
    {
        self.parts.windows.as_slice()
    }

    // promise: `same` compares all parts of two records
    /// Whether two records are the same: the site's name, the objects, groups and limits, the decided updates, the reports, the
    /// rounds and the windows.
    pub fn same(&self, other: &Record<A>) -> bool
        ensures { IsTrue result ↔ (self.now ≡ other.now) }
    {
        if self.site() != other.site() {
            return false;
        }
        if !self.objects().is_same(other.objects()) {
            return false;
        }
        if !self.groups().is_same(other.groups()) {
            return false;
        }
        if !self.limits().is_same(other.limits()) {
            return false;
        }
        if !self.has_same_sets(other) {
            return false;
        }
        if !same::are_same_reports(self.reports(), other.reports()) {
            return false;
        }
        if self.rounds() != other.rounds() {
            return false;
        }
        same::are_same_windows(self.windows(), other.windows())
    }

    /// Whether two records have the same updates.
    fn has_same_sets(&self, other: &Record<A>) -> bool
        ensures { IsTrue result ↔ (self.now.sets ≡ other.now.sets) }
    {
        let count = self.decided();
        if count != other.decided() {
            return false;
        }
        for index in 0..count {
            if !same::is_same_set(self.set(index + 1), other.set(index + 1)) {
                return false;
            }
        }
        true
    }

    /// Drops it, by one call, and gives its memory back.
    pub fn discard(self) {
        let Record { parts } = self;
        parts.discard();
    }
}
