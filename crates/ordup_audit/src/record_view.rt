ghost use Rattle.std.specs.Prelude.{◌≡◌, ◌≤◌, ◌<◌, length};

use crate::report_changes::ReportChanges;
use ordup_limits::{Groups, LimitTable};
use ordup_log::Log;
use ordup_objects::{MessageSet, Name, ObjectTable};
use ordup_rounds::Window;
use std::alloc::{Allocator, Global};
use std::marker::Model;

/// A record of which all parts are lent: by a [`Record`](crate::Record), or by what a primary has of a site.
#[derive(Drop)]
pub struct RecordView<'a, A: Allocator + Copy = Global> {
    /// The name of the site.
    pub site: &'a Name,
    /// The objects of the store.
    pub objects: &'a ObjectTable<A>,
    /// The groups of the store.
    pub groups: &'a Groups<A>,
    /// The limits of the site.
    pub limits: &'a LimitTable<A>,
    /// The log, whose first updates are the first decided ones.
    pub log: &'a Log<A>,
    /// How many of the decided updates are of the log.
    pub logged: u64,
    /// The decided updates after those of the log.
    pub rest: &'a [MessageSet<A>],
    /// The decisions at which the site had reported more than at the one before.
    pub reports: ReportChanges<'a>,
    /// The places of the rounds, in order.
    pub rounds: &'a [u64],
    /// The windows, in the order of the rounds.
    pub windows: &'a [Window],
}

impl<'a, A: Allocator + Copy> Model for RecordView<'a, A> {
    ghost use Rattle.ordup_audit.specs.Records.{RecordState};

    ghost Value = { RecordState };

    ghost use Rattle.ordup_audit.specs.RecordViewInside.{lent_state, IsLent};

    ghost view = { lent_state };

    ghost invariant = { IsLent };
}

impl<'a, A: Allocator + Copy> RecordView<'a, A> {
    ghost use Rattle.ordup_objects.specs.Serial.{set_at};
    ghost use Rattle.ordup_audit.specs.Records.{IsRecord, history_of};
    ghost use Rattle.ordup_audit.specs.RecordViews.{changes_in};

    // promise: as Record::view
    /// The name of the site.
    pub fn site(&self) -> &'a Name
        ensures { result.now ≡ self.now.site }
    {
        self.site
    }

    // promise: as Record::view
    /// The objects of the store, with their initial values.
    pub fn objects(&self) -> &'a ObjectTable<A>
        ensures { result.now ≡ self.now.objects }
    {
        self.objects
    }

    // promise: as Record::view
    /// The groups of the store.
    pub fn groups(&self) -> &'a Groups<A>
        ensures { result.now ≡ self.now.groups }
    {
        self.groups
    }

    // promise: as Record::view
    /// The limits of the site.
    pub fn limits(&self) -> &'a LimitTable<A>
        ensures { result.now ≡ self.now.limits }
    {
        self.limits
    }

    // promise: as Record::view
    /// What each record keeps, for the proofs of its users. It does nothing.
    #[inline(always)]
    pub fn keeps(&self)
        ensures { IsRecord self.now }
    {
        let _ = &self.logged;
    }

    // promise: as Record::view
    /// How many updates are decided.
    pub fn decided(&self) -> u64
        ensures { result ≡ length self.now.sets }
    {
        self.logged + self.rest.len() as u64
    }

    // promise: as Record::view
    /// The message set of the decided update with this number, counted from 1.
    pub fn set(&self, number: u64) -> &'a MessageSet<A>
        requires first { 0 < number }
        requires last { number ≤ length self.now.sets }
        ensures { result.now ≡ set_at (history_of self.now) number }
    {
        if number <= self.logged {
            return self.log.set(number);
        }
        &self.rest[(number - self.logged) as usize - 1]
    }

    // promise: as Record::view
    /// The decisions at which the site had reported more than at the one before, in order.
    pub fn reports(&self) -> ReportChanges<'a>
        ensures { changes_in result ≡ self.now.reports }
    {
        self.reports
    }

    // promise: as Record::view
    /// The places of the rounds, in order.
    pub fn rounds(&self) -> &'a [u64]
        ensures { result.now ≡ self.now.rounds }
    {
        self.rounds
    }

    // promise: as Record::view
    /// The windows, in the order of the rounds.
    pub fn windows(&self) -> &'a [Window]
        ensures { result.now ≡ self.now.windows }
    {
        self.windows
    }
}
