ghost use Rattle.std.specs.Prelude.{◌≡◌, ◌<◌, ◌≤◌, ◌+◌, None, pos, length, IfOk, IfErr, OnErr};
ghost use Rattle.ordup_objects.specs.Refusals.{IsRefusal};
ghost use Rattle.ordup_objects.specs.Sizes.{most_updates};
ghost use Rattle.ordup_query.specs.Queries.{begin_refusal};
ghost use Rattle.ordup_cluster.specs.Refusals.{IsReadRefusal, site_query_refusal};

use crate::cluster::Cluster;
use crate::session::Session;
use crate::site_query::SiteQuery;
use ordup_holds::{SeenValue, begin, view};
use ordup_objects::{ObjectId, Refusal, SiteId};
use ordup_query::Query;
use std::sync::Wait;

impl Cluster {
    // waits: of the site, once | for that lock, held for one read or application at a time, and while the site's gate waits in `at_apply`
    // promise applied before bounded seen allowed refused err: a read tells no fewer updates than were seen or came before the store, no more
    // than there can be, and they are then seen; no clause rules out `UnknownObject`
    /// Reads the value of an object at a site, with how many updates the site had applied.
    ///
    /// - The site had applied no fewer than the session had seen, all that came before the store, and at most 1,000,000 more.
    /// - The session has now seen what the site had applied.
    /// - The object and the site are there.
    /// - It is refused `UnknownObject`, `UnknownSite`, and `Behind` where the site applied fewer updates than the session has seen,
    ///   with how many it applied, all those before the store among
    ///   them, in this order.
    /// - Where it is refused, the session stays as it was.
    pub fn read<R: Wait>(
        &self,
        rt: &R,
        session: &mut Session,
        site: SiteId,
        object: ObjectId,
    ) -> Result<SeenValue, Refusal>
        ensures applied { IfOk result (λ read. session.old.seen ≤ read.applied) }
        ensures before { IfOk result (λ read. self.now.before ≤ read.applied) }
        ensures bounded { IfOk result (λ read. read.applied ≤ self.now.before + most_updates) }
        ensures seen { IfOk result (λ read. session.new.seen ≡ read.applied) }
        ensures allowed { IfOk result (λ _. (object < length self.now.start.objects) × (site < length self.now.start.sites)) }
        ensures refused { IfErr result (IsReadRefusal self.now (record { object = object; site = site; seen = session.old.seen })) }
        ensures err { OnErr result (session.new ≡ session.old) }
    {
        if object.index() >= self.objects().len() {
            return Err(Refusal::UnknownObject);
        }
        if site.index() >= self.cells.len() {
            return Err(Refusal::UnknownSite);
        }
        let read = self.view(rt, site, object)?;
        if read.applied < session.seen() {
            return Err(Refusal::Behind {
                applied: read.applied,
            });
        }
        session.see(read.applied);
        Ok(read)
    }

    /// The hold of a read.
    fn view<R: Wait>(&self, rt: &R, site: SiteId, object: ObjectId) -> Result<SeenValue, Refusal>
        requires { site < length self.now.start.sites }
        ensures before { IfOk result (λ read. self.now.before ≤ read.applied) }
        ensures bounded { IfOk result (λ read. read.applied ≤ self.now.before + most_updates) }
        ensures refused { IfErr result (λ e. e ≡ Refusal.UnknownObject) }
    {
        let cell = self.cells[site.index()].lock(rt);
        let here = view(&cell, object)?;
        Ok(SeenValue {
            value: here.value,
            applied: self.before.saturating_add(here.applied),
        })
    }

    // waits: of the site, once for each read; of the book, once for each pause | until the site has applied what the session has seen, at
    // most `pauses` pauses, with a turn before each
    // promise applied before bounded seen allowed refused err: as Cluster::read
    /// Reads as `read` does, and where the site is behind the session, makes a turn, sleeps until a site told something and reads again,
    /// at most so many times. Each pause takes a millisecond at most.
    ///
    /// It promises what `read` does, and is refused `Behind` after the last pause alone.
    pub fn read_when_level<R: Wait>(
        &self,
        rt: &R,
        session: &mut Session,
        site: SiteId,
        object: ObjectId,
        pauses: u64,
    ) -> Result<SeenValue, Refusal>
        ensures applied { IfOk result (λ read. session.old.seen ≤ read.applied) }
        ensures before { IfOk result (λ read. self.now.before ≤ read.applied) }
        ensures bounded { IfOk result (λ read. read.applied ≤ self.now.before + most_updates) }
        ensures seen { IfOk result (λ read. session.new.seen ≡ read.applied) }
        ensures allowed { IfOk result (λ _. (object < length self.now.start.objects) × (site < length self.now.start.sites)) }
        ensures refused { IfErr result (IsReadRefusal self.now (record { object = object; site = site; seen = session.old.seen })) }
        ensures err { OnErr result (session.new ≡ session.old) }
    {
        for _ in 0..pauses {
            let heard = self.listen();
            let answer = self.read(rt, session, site, object);
            if !matches!(answer, Err(Refusal::Behind { .. })) {
                return answer;
            }
            // Else nobody may send the site what it lacks.
            let _ = self.turn(rt);
            self.pause(rt, heard);
        }
        self.read(rt, session, site, object)
    }

    // waits: as Cluster::relimit
    // promise: a query has the given limit; reads add imports and values; the total is within the limit
    /// Begins a query at a site with this import limit, from 0 to 10^18. Its reference is what is acknowledged now.
    ///
    /// - The query has this limit, and has read nothing.
    /// - Its reference is the number of updates before the store, or up to 1,000,000 more.
    /// - The site is there, and the limit is in range.
    /// - It is refused `UnknownSite`, `OutOfRange` for the limit, and `NoMemory`, in this order.
    pub fn begin<R: Wait>(&self, rt: &R, site: SiteId, limit: u64) -> Result<SiteQuery<'_>, Refusal>
        ensures query { IfOk result (λ q. q ≡ record { place = q.place; marks = q.marks; limit = limit; sum = pos 0; total = 0; reads = 0 }) }
        ensures place { IfOk result (λ q. (self.now.before ≤ q.place) × (q.place ≤ self.now.before + most_updates)) }
        ensures allowed { IfOk result (λ _. site_query_refusal (length self.now.start.sites) site limit ≡ None) }
        ensures refused { IfErr result (λ e. IsRefusal (site_query_refusal (length self.now.start.sites) site limit) e) }
    {
        if site.index() >= self.cells.len() {
            return Err(Refusal::UnknownSite);
        }
        let query = self.begin_query(rt, limit)?;
        Ok(SiteQuery {
            cell: &self.cells[site.index()],
            before: self.before,
            query,
        })
    }

    /// The hold in which a query begins.
    fn begin_query<R: Wait>(&self, rt: &R, limit: u64) -> Result<Query, Refusal>
        ensures query { IfOk result (λ q. q ≡ record { place = q.place; marks = q.marks; limit = limit; sum = pos 0; total = 0; reads = 0 }) }
        ensures place { IfOk result (λ q. q.place ≤ most_updates) }
        ensures allowed { IfOk result (λ _. begin_refusal limit ≡ None) }
        ensures refused { IfErr result (λ e. IsRefusal (begin_refusal limit) e) }
    {
        let book = self.book.lock(rt);
        book.primary().keeps();
        begin(&book, limit)
    }
}
