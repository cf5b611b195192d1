ghost use Rattle.std.specs.Prelude.{◌≡◌, ◌≤◌, ◌<◌, ◌+◌, ◌+ℤ◌, ℕ, ℤ, pos, None, Some, List, ◌∷◌, IfOk, IfErr, OnOk, OnErr, length};
ghost use Rattle.ordup_objects.specs.States.{value_at};
ghost use Rattle.ordup_objects.specs.Serial.{History, serial};
ghost use Rattle.ordup_objects.specs.Weights.{distance};
ghost use Rattle.ordup_site.specs.Sites.{HasApplied};
ghost use Rattle.ordup_query.specs.declared.answer.ReadAnswer.{ReadAnswer};
ghost use Rattle.ordup_query.specs.Sizes.{most_reads};
ghost use Rattle.ordup_query.specs.Imports.{import_of, charge};
ghost use Rattle.ordup_objects.specs.Marks.{mark_at, AreMarks};
ghost use Rattle.ordup_query.specs.Queries.{begin_refusal, refusal_at, summed_up, HasRead};

use crate::answer::{QueryAnswer, ReadAnswer};
use crate::sizes::{GREATEST_IMPORT_LIMIT, MOST_READS};
use ordup_objects::{ObjectId, Refusal};
use ordup_site::Site;
use std::alloc::{Allocator, Global};
use std::marker::Model;

/// A query at a site: up to 256 reads, which may import inconsistency up to a limit.
///
/// Its reference is a place of the log, and its marks are the weights on the objects of the updates up to that place. A read at
/// a site that applied fewer updates, or more, imports the weight on the object of the updates between. That a query has an
/// import limit is an idea of Ramamritham and Pu (TKDE 1995).
#[derive(Drop)]
pub struct Query<A: Allocator + Copy = Global> {
    place: u64,
    marks: Vec<u64, A>,
    limit: u64,
    sum: i64,
    total: u64,
    reads: u64,
}

impl<A: Allocator + Copy> Model for Query<A> {
    ghost use Rattle.ordup_query.specs.Queries.{QueryState};

    ghost Value = { QueryState };

    ghost view = { λ q. record { place = q.place; marks = q.marks.items; limit = q.limit; sum = q.sum; total = q.total; reads = q.reads } };

    ghost use Rattle.ordup_query.specs.QueryInside.{IsQuery};

    ghost invariant = { IsQuery };
}

impl<A: Allocator + Copy> Query<A> {
    // promise query allowed refused: a query begins as given; exactly a limit above 10^18 is refused
    /// A query without reads, with its reference, the marks of the objects there, and its import limit, 0 to 10^18.
    ///
    /// It is refused `OutOfRange` for the limit; the marks are given up then.
    pub fn begin(place: u64, marks: Vec<u64, A>, limit: u64) -> Result<Self, Refusal>
        ensures query { IfOk result (λ query. query ≡ record { place = place; marks = marks.items; limit = limit; sum = pos 0; total = 0; reads = 0 }) }
        ensures allowed { IfOk result (λ _. begin_refusal limit ≡ None) }
        ensures refused { IfErr result (λ e. begin_refusal limit ≡ Some e) }
    {
        if limit > GREATEST_IMPORT_LIMIT {
            return Err(Refusal::OutOfRange);
        }
        Ok(Query {
            place,
            marks,
            limit,
            sum: 0,
            total: 0,
            reads: 0,
        })
    }

    // promise: as Query::end
    /// How many objects have a mark.
    pub fn objects(&self) -> usize
        ensures { result ≡ length self.now.marks }
    {
        self.marks.len()
    }

    // promise: as Query::end
    /// The reference: the place of the log that the query's imports are measured against.
    pub fn place(&self) -> u64
        ensures { result ≡ self.now.place }
    {
        self.place
    }

    // promise: as Query::end
    /// How many reads were accepted.
    pub fn reads(&self) -> u64
        ensures { result ≡ self.now.reads }
    {
        self.reads
    }

    // promise value import total query reads: a read answers the value, the charge, from the mark to what was travelled, and the new
    // total
    // promise allowed refused err: a read is refused exactly after 256 reads, and else past the limit
    // promise imported near: the charge is the weight between site and marks; the value is off by no more
    /// Reads an object at a site: its value there, what the read imports, and the new total.
    ///
    /// It is refused `TooMany` after 256 accepted reads, and `OverImport` where the total would pass the limit. The query then
    /// stands as before.
    #[inline(always)]
    pub fn read(&mut self, site: &Site<A>, object: ObjectId) -> Result<ReadAnswer, Refusal>
        requires marked { object < length self.old.marks }
        requires known { object < length site.now.values }
        ensures value { IfOk result (λ a. a.value ≡ value_at site.now.values object) }
        ensures import { IfOk result (λ a. a.import ≡ charge site.now self.old.marks object) }
        ensures total { IfOk result (λ a. a.total ≡ self.old.total + a.import) }
        ensures query { IfOk result (λ a. self.new ≡ record self.old { sum = self.old.sum +ℤ a.value; total = a.total; reads = self.old.reads + 1 }) }
        ensures reads { (answers : List ReadAnswer) → HasRead self.old answers → IfOk result (λ a. HasRead self.new (a ∷ answers)) }
        ensures allowed { OnOk result (refusal_at self.old site.now object ≡ None) }
        ensures refused { IfErr result (λ e. refusal_at self.old site.now object ≡ Some e) }
        ensures err { OnErr result (self.new ≡ self.old) }
        // Where the marks are those of a reference on a history, of which the site applied the first j updates, the import is
        // the weight between, and the value at the reference is no further off.
        ensures imported { (h : History) (j p : ℕ) → HasApplied site.now h j → AreMarks h p self.old.marks → IfOk result (λ a. a.import ≡ import_of h object j p) }
        ensures near { (h : History) (j p : ℕ) → HasApplied site.now h j → AreMarks h p self.old.marks → IfOk result (λ a. distance a.value (value_at (serial h p) object) ≤ a.import) }
    {
        if self.reads == MOST_READS {
            return Err(Refusal::TooMany);
        }
        let import = site.travelled(object).abs_diff(self.marks[object.index()]);
        if import > self.limit - self.total {
            return Err(Refusal::OverImport);
        }
        let value = site.value(object);
        self.sum += value;
        self.total += import;
        self.reads += 1;
        Ok(ReadAnswer {
            value,
            import,
            total: self.total,
        })
    }

    // promise answer reads within few: the end answers reference, count and sums; the total is within the limit
    /// Ends the query, and returns what its accepted reads added up to.
    pub fn end(self) -> QueryAnswer
        ensures answer { result ≡ record { place = self.place; sum = self.sum; total = self.total; reads = self.reads } }
        ensures reads { (answers : List ReadAnswer) → HasRead self answers → result ≡ summed_up self.place answers }
        ensures within { result.total ≤ self.limit }
        ensures few { result.reads ≤ most_reads }
    {
        QueryAnswer {
            place: self.place,
            sum: self.sum,
            total: self.total,
            reads: self.reads,
        }
    }
}
