ghost use Rattle.std.specs.Prelude.{◌≡◌, ◌<◌, ◌≤◌, ◌+◌, ◌+ℤ◌, None, List, ◌∷◌, length, IfOk, IfErr, OnErr};
ghost use Rattle.ordup_query.specs.declared.answer.ReadAnswer.{ReadAnswer};
ghost use Rattle.ordup_query.specs.Queries.{HasRead, read_refusal, summed_up};
ghost use Rattle.ordup_cluster.specs.Refusals.{IsQueryRefusal};

use ordup_holds::SiteCell;
use ordup_objects::{ObjectId, Refusal};
use ordup_query::{Query, QueryAnswer, ReadAnswer};
use std::marker::Model;
use std::sync::{Mutex, Wait};

/// A query at a site of a cluster. Its reference is what was acknowledged as it began, which counts all updates before the store.
#[derive(Drop)]
pub struct SiteQuery<'a> {
    pub(crate) cell: &'a Mutex<SiteCell>,
    /// How many updates came before the store.
    pub(crate) before: u64,
    pub(crate) query: Query,
}

impl<'a> Model for SiteQuery<'a> {
    ghost use Rattle.std.specs.Prelude.{◌+◌};
    ghost use Rattle.ordup_query.specs.Queries.{QueryState};

    ghost Value = { QueryState };

    ghost view = { λ s. record s.query { place = s.before + s.query.place } };

    ghost use Rattle.ordup_cluster.specs.QueryInside.{KeepsPlace};

    ghost invariant = { KeepsPlace };
}

impl SiteQuery<'_> {
    // waits: as Cluster::read
    // promise: as Cluster::begin
    /// Reads an object at the site: its value, what the read imports, and the new total. It takes the lock of the site.
    ///
    /// - The new total is the old one and the import.
    /// - The query has the value in its sum, the new total, and one more read.
    /// - Whatever answers the query had, it has this one after them.
    /// - The object has a mark.
    /// - The read is allowed by its import and by what was read before.
    /// - It is refused `UnknownObject` where there is no such object, `TooMany` after 256 accepted reads, and `OverImport` where
    ///   the total would pass the limit.
    /// - Where it is refused, the query stays as it was.
    pub fn read<R: Wait>(&mut self, rt: &R, object: ObjectId) -> Result<ReadAnswer, Refusal>
        ensures total { IfOk result (λ a. a.total ≡ self.old.total + a.import) }
        ensures query { IfOk result (λ a. self.new ≡ record self.old { sum = self.old.sum +ℤ a.value; total = a.total; reads = self.old.reads + 1 }) }
        ensures reads { (answers : List ReadAnswer) → HasRead self.old answers → IfOk result (λ a. HasRead self.new (a ∷ answers)) }
        ensures marked { IfOk result (λ _. object < length self.old.marks) }
        ensures allowed { IfOk result (λ a. read_refusal self.old.reads self.old.limit self.old.total a.import ≡ None) }
        ensures refused { IfErr result (IsQueryRefusal self.old object) }
        ensures err { OnErr result (self.new ≡ self.old) }
    {
        if object.index() >= self.query.objects() {
            return Err(Refusal::UnknownObject);
        }
        let cell = self.cell.lock(rt);
        let site = cell.site();
        if object.index() >= site.len() {
            return Err(Refusal::UnknownObject);
        }
        self.query.read(site, object)
    }

    // waits: as Cluster::new
    // promise: as Cluster::begin
    /// Ends the query, and answers what its accepted reads added up to. It takes no lock.
    ///
    /// - The answer has the place of the reference, the sum of the values, the total of the imports, and how many reads there were.
    /// - These are those of the answers that the query had.
    /// - The total is within the limit.
    pub fn end(self) -> QueryAnswer
        ensures answer { result ≡ record { place = self.entry.place; sum = self.entry.sum; total = self.entry.total; reads = self.entry.reads } }
        ensures reads { (answers : List ReadAnswer) → HasRead self.entry answers → result ≡ summed_up self.entry.place answers }
        ensures within { result.total ≤ self.entry.limit }
    {
        let SiteQuery {
            cell: _,
            before,
            query,
        } = self;
        let answer = query.end();
        QueryAnswer {
            place: before + answer.place,
            ..answer
        }
    }
}
