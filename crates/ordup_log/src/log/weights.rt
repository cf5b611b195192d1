//! What the updates of a log weigh: spans, running weights, and postings.
ghost use Rattle.std.specs.Prelude.{◌≡◌, ◌≤◌, ◌-◌, ◌*◌, ◌<◌, IfOk, IfErr, OnOk, [], length, sum_by, if◌then◌else◌, ◌==◌};
ghost use Rattle.ordup_objects.specs.Sizes.{greatest_distance, greatest_weight, most_members, most_updates};
ghost use Rattle.ordup_objects.specs.Weights.{object_weight, object_span};
ghost use Rattle.ordup_objects.specs.Marks.{AreMarks};
ghost use Rattle.ordup_log.specs.Rows.{updates_a_row};
ghost use Rattle.ordup_log.specs.Postings.{posted};

use crate::groups::Groups;
use crate::log::Log;
use crate::marks::UPDATES_A_ROW;
use crate::moved_weights::{total, total_on, total_on_all};
use crate::scope::Scope;
use ordup_objects::{ObjectId, Refusal, or_give_up};
use std::alloc::Allocator;

impl<A: Allocator + Copy> Log<A> {
    ghost use Rattle.ordup_objects.specs.Serial.{IsLegalHistory};
    ghost use Rattle.ordup_log.specs.Spans.{weight, span, IsScopeKnown};
    ghost use Rattle.ordup_log.specs.Postings.{postings_of};

    // promise weight few: a weight is the distance travelled on a scope, or 1; at most 128,000,000,000
    /// The weight of an update on a scope: the distance that values travelled, or 1 on `Count`.
    pub fn weight(&self, number: u64, scope: Scope, groups: &Groups<A>) -> u64
        requires first { 0 < number }
        requires last { number ≤ length self.now.sets }
        requires known { IsScopeKnown (length self.now.start) groups.now scope }
        ensures weight { result ≡ weight self.now groups.now scope (number - 1) }
        ensures few { result ≤ greatest_weight }
    {
        self.keeps();
        groups.keeps();
        self.span(scope, groups, number - 1, number)
    }

    // promise span few: a span weighs the sum of its updates; it fits
    /// The weight of the span from a place to another: the sum over the updates after the first, up to the second.
    ///
    /// Where it has at most 255 updates, it goes over their changes. Else it is the difference of two running weights, each of which
    /// goes over the changes of at most 255 updates. On a group it is the sum over the members.
    pub fn span(&self, scope: Scope, groups: &Groups<A>, from: u64, to: u64) -> u64
        requires forward { from ≤ to }
        requires last { to ≤ length self.now.sets }
        requires known { IsScopeKnown (length self.now.start) groups.now scope }
        ensures span { result ≡ span self.now groups.now scope from to }
        ensures few { result ≤ most_updates * greatest_weight }
    {
        self.keeps();
        match scope {
            Scope::Object(object) => self.span_on(object, from, to),
            Scope::Group(group) => self.span_on_members(groups.members(group), from, to),
            Scope::All => self.span_on_all(from, to),
            Scope::Count => to - from,
        }
    }

    // promise postings refused: postings are the places with a weight on an object, with running weights
    /// The places with a weight above 0 on an object, ascending, each with the running weight: that of the span from 0 to it.
    ///
    /// They are made for the call, which goes over all changes of the log once. The only refusal is `NoMemory`.
    pub fn postings(&self, alloc: A, object: ObjectId) -> Result<Vec<(u64, u64), A>, Refusal>
        ensures postings { IfOk result (λ p. p.items ≡ postings_of (object_weight self.now object) (length self.now.sets)) }
        ensures refused { IfErr result (λ e. e ≡ Refusal.NoMemory) }
        ensures legal { IsLegalHistory self.now }
    {
        self.keeps();
        let mut postings = Vec::new(alloc);
        or_give_up!(self.add_postings(object, &mut postings), postings);
        Ok(postings)
    }

    /// Adds the postings of an object to an empty list. The only refusal is `NoMemory`.
    fn add_postings(
        &self,
        object: ObjectId,
        postings: &mut Vec<(u64, u64), A>,
    ) -> Result<(), Refusal>
        requires { postings.old.items ≡ [] }
        ensures postings { OnOk result (postings.new.items ≡ postings_of (object_weight self.now object) (length self.now.sets)) }
        ensures refused { IfErr result (λ e. e ≡ Refusal.NoMemory) }
    {
        let mut running = 0;
        for index in 0..self.len() {
            let weight = total_on(object, self.moves(index + 1));
            running += weight;
            post(postings, index + 1, weight, running)?;
        }
        Ok(())
    }

    // promise: as Log::postings
    /// What the updates up to a place weigh on an object. An object that is not there weighs nothing.
    ///
    /// At the end of the log it is at hand. Elsewhere it is that of the last row of marks, and what the updates after the row weigh.
    pub fn running_weight(&self, object: ObjectId, place: u64) -> u64
        requires { place ≤ length self.now.sets }
        ensures { result ≡ object_span self.now object 0 place }
    {
        if object.index() >= self.objects() {
            0
        } else if place == self.len() {
            self.travelled[object.index()]
        } else {
            let row = place / UPDATES_A_ROW;
            self.mark(object, row)
                + total_on(object, self.moves_between(row * UPDATES_A_ROW, place))
        }
    }

    /// What the updates up to a place weigh on all objects.
    fn running_weight_on_all(&self, place: u64) -> u64
        requires { place ≤ length self.now.sets }
        ensures { result ≡ span self.now [] Scope.All 0 place }
    {
        self.keeps();
        let row = place / UPDATES_A_ROW;
        total(self.row(row)) + total_on_all(self.moves_between(row * UPDATES_A_ROW, place))
    }

    /// What the updates up to a row weigh on an object that is there.
    fn mark(&self, object: ObjectId, row: u64) -> u64
        requires object { object < length self.now.start }
        requires last { updates_a_row * row ≤ length self.now.sets }
        ensures { result ≡ object_span self.now object 0 (updates_a_row * row) }
    {
        if row == 0 {
            0
        } else {
            self.row(row)[object.index()]
        }
    }

    /// The marks of a row, counted from 1; the row 0 has none.
    fn row(&self, row: u64) -> &[u64]
        requires last { updates_a_row * row ≤ length self.now.sets }
        ensures count { length result.now ≡ (if row == 0 then 0 else length self.now.start) }
        ensures marks { AreMarks self.now (updates_a_row * row) result.now }
    {
        let count = self.start.len();
        if row == 0 {
            &[]
        } else {
            let begin = (row as usize - 1) * count;
            &self.marks[begin..begin + count]
        }
    }

    fn span_on(&self, object: ObjectId, from: u64, to: u64) -> u64
        requires forward { from ≤ to }
        requires last { to ≤ length self.now.sets }
        ensures span { result ≡ object_span self.now object from to }
        ensures few { result ≤ most_updates * greatest_distance }
    {
        self.keeps();
        if to - from < UPDATES_A_ROW {
            total_on(object, self.moves_between(from, to))
        } else {
            self.running_weight(object, to) - self.running_weight(object, from)
        }
    }

    fn span_on_all(&self, from: u64, to: u64) -> u64
        requires forward { from ≤ to }
        requires last { to ≤ length self.now.sets }
        ensures span { result ≡ span self.now [] Scope.All from to }
        ensures few { result ≤ most_updates * greatest_weight }
    {
        self.keeps();
        if to - from < UPDATES_A_ROW {
            total_on_all(self.moves_between(from, to))
        } else {
            self.running_weight_on_all(to) - self.running_weight_on_all(from)
        }
    }

    /// The sum of the weights of a span on several objects.
    fn span_on_members(&self, members: &[ObjectId], from: u64, to: u64) -> u64
        requires forward { from ≤ to }
        requires last { to ≤ length self.now.sets }
        requires members { length members.now ≤ most_members }
        ensures span { result ≡ sum_by (λ x. object_span self.now x from to) members.now }
        ensures few { result ≤ most_updates * greatest_weight }
    {
        let mut total = 0;
        for member in members {
            total += self.span_on(*member, from, to);
        }
        total
    }
}

/// Adds a posting at a place, if the place weighs something.
fn post<A: Allocator + Copy>(
    postings: &mut Vec<(u64, u64), A>,
    number: u64,
    weight: u64,
    running: u64,
) -> Result<(), Refusal>
    ensures posted { OnOk result (postings.new.items ≡ posted postings.old.items number weight running) }
    ensures refused { IfErr result (λ e. e ≡ Refusal.NoMemory) }
{
    if weight > 0 {
        postings.push((number, running))?;
    }
    Ok(())
}
