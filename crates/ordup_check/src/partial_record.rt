//! A record as far as its rows were read, and how each row is added.
ghost use Rattle.std.specs.Prelude.{◌≡◌, ◌≢◌, ◌<◌, ◌≤◌, ◌&&◌, ◌++◌, ◌∷◌, [], false, not, IfOk, length, map};
ghost use Rattle.std.specs.Bool.{then_some};
ghost use Rattle.std.specs.Option.{is_none};
ghost use Rattle.ordup_limits.specs.Entries.{change_refusal, entry_of};
ghost use Rattle.ordup_rows.specs.Columns.{natural_of};
ghost use Rattle.ordup_rows.specs.Stages.{last_number, has_entry, has_objects, has_updates, is_before_changes, is_before_limits, is_before_members};
ghost use Rattle.ordup_rows.specs.Stages.{is_before_reports, is_before_rounds, is_before_windows, is_last_group, last_place};
ghost use Rattle.ordup_rows.specs.Stages.{may_hold_from, may_report, may_round, with_any_change, with_change_row};
ghost use Rattle.ordup_rows.specs.Stages.{with_first_change};
ghost use Rattle.ordup_rows.specs.Stages.{with_limit, with_member_row, with_next_change, with_object, with_report, with_round, with_row};
ghost use Rattle.ordup_rows.specs.Stages.{with_value, with_window};
ghost use Rattle.ordup_check.specs.ColumnViews.{columns_view};
ghost use Rattle.ordup_check.specs.PartialRecords.{Takes, record_so_far};

use crate::partial_updates::PartialUpdates;
use crate::row_columns::{RowColumns, amount, change, is_number, natural, scope, value, writes};
use ordup_audit::sizes::MOST_WINDOWS;
use ordup_audit::{ReportChange, member_count};
use ordup_limits::{GroupId, Groups, LimitTable, Scope};
use ordup_objects::sizes::MOST_UPDATES;
use ordup_objects::{Change, MessageSet, Name, Refusal};
use ordup_rounds::Window;
use ordup_rows::{RowKind, Version};
use std::alloc::AllocError;

/// What becomes of a row whose part is refused: it is not taken, unless memory was refused.
fn not_taken(refusal: Refusal) -> Result<bool, AllocError>
    ensures { IfOk result (λ taken. (taken ≡ false) × (refusal ≢ Refusal.NoMemory)) }
{
    match refusal {
        Refusal::NoMemory => Err(AllocError),
        _ => Ok(false),
    }
}

/// A record as far as its rows were read.
#[derive(Drop)]
pub struct PartialRecord {
    pub site: Name,
    pub updates: PartialUpdates,
    pub groups: Groups,
    pub limits: LimitTable,
    pub reports: Vec<ReportChange>,
    pub rounds: Vec<u64>,
    pub windows: Vec<Window>,
}

impl PartialRecord {
    /// Whether no window is there yet.
    fn is_before_windows(&self) -> bool
        ensures { result ≡ is_before_windows (record_so_far self.now) }
    {
        self.windows.is_empty()
    }

    /// Whether no round is there yet, and nothing that comes after the rounds.
    fn is_before_rounds(&self) -> bool
        ensures { result ≡ is_before_rounds (record_so_far self.now) }
    {
        self.rounds.is_empty() && self.is_before_windows()
    }

    /// Whether no report is there yet, and nothing that comes after the reports.
    fn is_before_reports(&self) -> bool
        ensures { result ≡ is_before_reports (record_so_far self.now) }
    {
        self.reports.is_empty() && self.is_before_rounds()
    }

    /// Whether no update is there yet, and nothing that comes after the updates.
    fn is_before_changes(&self) -> bool
        ensures { result ≡ is_before_changes (record_so_far self.now) }
    {
        self.updates.len() == 0 && self.is_before_reports()
    }

    /// Whether no limit is there yet, and nothing that comes after the limits.
    fn is_before_limits(&self) -> bool
        ensures { result ≡ is_before_limits (record_so_far self.now) }
    {
        self.limits.entries().is_empty() && self.is_before_changes()
    }

    /// Whether no member is there yet, and nothing that comes after the members.
    fn is_before_members(&self) -> bool
        ensures { result ≡ is_before_members (record_so_far self.now) }
    {
        self.groups.len() == 0 && self.is_before_limits()
    }

    /// Whether an object is there.
    fn has_objects(&self) -> bool
        ensures { result ≡ has_objects (record_so_far self.now) }
    {
        self.updates.objects().len() > 0
    }

    /// Whether an object is there, and each decided update.
    pub fn has_updates(&self, decided: u64) -> bool
        ensures { result ≡ has_updates decided (record_so_far self.now) }
    {
        self.has_objects() && self.updates.len() == decided
    }

    /// Takes the object of a row, which has this value.
    fn add_value(&mut self, c: &RowColumns<'_>, value: i64) -> Result<bool, AllocError>
        ensures { Takes result self.new (with_value (record_so_far self.old) (columns_view c.now) value) }
    {
        if !self.is_before_members() || !writes(c.first, self.updates.objects().len() as u64 + 1) {
            return Ok(false);
        }
        match self.updates.declare(c.second, value) {
            Ok(_) => Ok(true),
            Err(refusal) => not_taken(refusal),
        }
    }

    /// Takes the object of a row.
    fn add_object(&mut self, c: &RowColumns<'_>) -> Result<bool, AllocError>
        ensures { Takes result self.new (with_object (record_so_far self.old) (columns_view c.now)) }
    {
        let Some(value) = value(c.third) else {
            return Ok(false);
        };
        self.add_value(c, value)
    }

    /// Takes the member of a row: of the last group, or the first of a new one.
    fn add_member(&mut self, c: &RowColumns<'_>) -> Result<bool, AllocError>
        ensures { Takes result self.new (with_member_row (record_so_far self.old) (columns_view c.now)) }
    {
        let Some(member) = self.updates.objects().find(c.third) else {
            return Ok(false);
        };
        if !self.is_before_limits() || !writes(c.first, member_count(&self.groups) + 1) {
            return Ok(false);
        }
        if is_last_group(&self.groups, c.second) {
            match self.groups.add_member(self.updates.objects(), member) {
                Ok(()) => Ok(true),
                Err(refusal) => not_taken(refusal),
            }
        } else {
            match self
                .groups
                .declare(self.updates.objects(), c.second, &[member])
            {
                Ok(_) => Ok(true),
                Err(refusal) => not_taken(refusal),
            }
        }
    }

    /// The place from which the last limit holds, 0 where there is none.
    fn last_place(&self) -> u64
        ensures { result ≡ last_place self.now.limits }
    {
        match self.limits.entries().last() {
            Some(entry) => entry.place,
            None => 0,
        }
    }

    /// Whether the next limit may hold from a place: one from 1 to the place after the last decided one, and no earlier than that
    /// of the limit before it.
    fn may_hold_from(&self, decided: u64, place: u64) -> bool
        ensures { result ≡ may_hold_from decided self.now.limits place }
    {
        place > 0 && place - 1 <= decided && self.last_place() <= place
    }

    /// Takes a limit that may hold from its place, where none is of its scope and place.
    fn add_entry(&mut self, scope: Scope, amount: u64, place: u64) -> Result<bool, AllocError>
        requires begun { 0 < place }
        requires later { last_place self.old.limits ≤ place }
        ensures { let e = entry_of scope amount place in Takes result self.new (then_some
            (not (has_entry self.old.limits e)
            && is_none (change_refusal (length self.old.updates.objects) self.old.groups self.old.limits e))
            (record (record_so_far self.old) { limits = self.old.limits ++ e ∷ [] })) }
    {
        self.limits.keeps();
        let count = self.limits.entries().len();
        match self
            .limits
            .change(self.updates.objects(), &self.groups, scope, amount, place)
        {
            // One of the scope and place was replaced where there are no more than before.
            Ok(()) => Ok(self.limits.entries().len() > count),
            Err(refusal) => not_taken(refusal),
        }
    }

    /// Takes the limit of a row.
    fn add_limit(
        &mut self,
        version: Version,
        decided: u64,
        c: &RowColumns<'_>,
    ) -> Result<bool, AllocError>
        ensures { Takes result self.new (with_limit version decided (record_so_far self.old) (columns_view c.now)) }
    {
        let Some(scope) = scope(self.updates.objects(), &self.groups, c.second) else {
            return Ok(false);
        };
        let Some((amount, place)) = amount(version, c.third) else {
            return Ok(false);
        };
        let count = self.limits.entries().len() as u64;
        if !self.has_objects() || !self.is_before_changes() || !writes(c.first, count + 1) {
            return Ok(false);
        }
        if !self.may_hold_from(decided, place) {
            return Ok(false);
        }
        self.add_entry(scope, amount, place)
    }

    /// Takes the first change of an update.
    fn add_first_change(
        &mut self,
        decided: u64,
        c: &RowColumns<'_>,
        change: Change,
    ) -> Result<bool, AllocError>
        ensures { Takes result self.new (with_first_change decided (record_so_far self.old) (columns_view c.now) change) }
    {
        let place = self.updates.len();
        if !self.is_before_reports() || place >= decided || !writes(c.first, place + 1) {
            return Ok(false);
        }
        let Ok(set) = MessageSet::single(self.updates.objects(), change) else {
            return Ok(false);
        };
        self.updates.push(set)?;
        Ok(true)
    }

    /// Takes the next change of the last update, by the position that the row writes.
    fn add_next_change(
        &mut self,
        c: &RowColumns<'_>,
        position: Option<u64>,
        change: Change,
    ) -> Result<bool, AllocError>
        requires some { 0 < length (record_so_far self.old).sets }
        requires position { position ≡ natural_of c.now.second.now }
        ensures { Takes result self.new (with_next_change (record_so_far self.old) (columns_view c.now) change) }
    {
        if !self.is_before_reports()
            || !writes(c.first, self.updates.len())
            || !is_number(self.updates.last_len() + 1, position)
        {
            return Ok(false);
        }
        match self.updates.add_change(change) {
            Ok(()) => Ok(true),
            Err(refusal) => not_taken(refusal),
        }
    }

    /// Takes the change of a row, of the last update or of the next.
    fn add_any_change(
        &mut self,
        decided: u64,
        c: &RowColumns<'_>,
        change: Change,
    ) -> Result<bool, AllocError>
        ensures { Takes result self.new (with_any_change decided (record_so_far self.old) (columns_view c.now) change) }
    {
        let position = natural(c.second);
        if is_number(1, position) {
            self.add_first_change(decided, c, change)
        } else if self.updates.len() == 0 {
            Ok(false)
        } else {
            self.add_next_change(c, position, change)
        }
    }

    /// Takes the change of a row.
    fn add_change(&mut self, decided: u64, c: &RowColumns<'_>) -> Result<bool, AllocError>
        ensures { Takes result self.new (with_change_row decided (record_so_far self.old) (columns_view c.now)) }
    {
        let Some(change) = change(self.updates.objects(), c.third) else {
            return Ok(false);
        };
        self.add_any_change(decided, c, change)
    }

    /// The place of the last report change, 0 where there is none.
    fn last_report_place(&self) -> u64
        ensures { result ≡ last_number (map (λ c. c.place) self.now.reports.items) }
    {
        match self.reports.last() {
            Some(change) => change.place,
            None => 0,
        }
    }

    /// What was reported last, 0 where nothing was.
    fn last_reported(&self) -> u64
        ensures { result ≡ last_number (map (λ c. c.reported) self.now.reports.items) }
    {
        match self.reports.last() {
            Some(change) => change.reported,
            None => 0,
        }
    }

    /// Whether a report change may come next.
    fn may_report(&self, decided: u64, place: u64, reported: u64) -> bool
        ensures { result ≡ may_report decided (record_so_far self.now) place reported }
    {
        self.has_updates(decided)
            && self.is_before_rounds()
            && self.last_report_place() < place
            && place <= decided
            && self.last_reported() < reported
            && reported <= MOST_UPDATES as u64
    }

    /// Takes the report change of a row.
    fn add_report(&mut self, decided: u64, c: &RowColumns<'_>) -> Result<bool, AllocError>
        ensures { Takes result self.new (with_report decided (record_so_far self.old) (columns_view c.now)) }
    {
        let Some(place) = natural(c.first) else {
            return Ok(false);
        };
        let Some(reported) = natural(c.second) else {
            return Ok(false);
        };
        if !self.may_report(decided, place, reported) || c.third != b"-".as_slice() {
            return Ok(false);
        }
        self.reports.push(ReportChange { place, reported })?;
        Ok(true)
    }

    /// The place of the last round, 0 where there is none.
    fn last_round(&self) -> u64
        ensures { result ≡ last_number self.now.rounds.items }
    {
        match self.rounds.last() {
            Some(place) => *place,
            None => 0,
        }
    }

    /// Whether the round of a place may come next.
    fn may_round(&self, decided: u64, place: u64) -> bool
        ensures { result ≡ may_round decided (record_so_far self.now) place }
    {
        self.has_updates(decided)
            && self.is_before_windows()
            && self.last_round() < place
            && place <= decided
    }

    /// Takes the round of a row.
    fn add_round(&mut self, decided: u64, c: &RowColumns<'_>) -> Result<bool, AllocError>
        ensures { Takes result self.new (with_round decided (record_so_far self.old) (columns_view c.now)) }
    {
        let Some(place) = natural(c.second) else {
            return Ok(false);
        };
        if !self.may_round(decided, place)
            || c.third != b"-".as_slice()
            || !writes(c.first, self.rounds.len() as u64 + 1)
        {
            return Ok(false);
        }
        self.rounds.push(place)?;
        Ok(true)
    }

    /// Takes the window of a row.
    fn add_window(&mut self, decided: u64, c: &RowColumns<'_>) -> Result<bool, AllocError>
        ensures { Takes result self.new (with_window decided (record_so_far self.old) (columns_view c.now)) }
    {
        let Some(from) = natural(c.second) else {
            return Ok(false);
        };
        let Some(to) = natural(c.third) else {
            return Ok(false);
        };
        let count = self.windows.len();
        if !self.has_updates(decided)
            || !writes(c.first, count as u64 + 1)
            || count >= MOST_WINDOWS
        {
            return Ok(false);
        }
        if from > decided || to > decided {
            return Ok(false);
        }
        self.windows.push(Window { from, to })?;
        Ok(true)
    }

    /// Takes a row of a kind.
    pub fn add_row(
        &mut self,
        version: Version,
        decided: u64,
        kind: RowKind,
        c: &RowColumns<'_>,
    ) -> Result<bool, AllocError>
        ensures { Takes result self.new (with_row version decided (record_so_far self.old) kind (columns_view c.now)) }
    {
        match kind {
            RowKind::Object => self.add_object(c),
            RowKind::Member => self.add_member(c),
            RowKind::Limit => self.add_limit(version, decided, c),
            RowKind::Change => self.add_change(decided, c),
            RowKind::Report => self.add_report(decided, c),
            RowKind::Round => self.add_round(decided, c),
            RowKind::Window => self.add_window(decided, c),
        }
    }
}

/// Whether the last group has this name.
fn is_last_group(groups: &Groups, name: &[u8]) -> bool
    ensures { result ≡ is_last_group groups.now name.now }
{
    let count = groups.len();
    if count == 0 {
        return false;
    }
    name == groups.name(GroupId::new(count as u8 - 1)).as_bytes()
}
