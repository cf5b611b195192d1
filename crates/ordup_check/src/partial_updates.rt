//! The objects of a record and its updates, as far as their rows were read.
ghost use Rattle.std.specs.Prelude.{◌≡◌, ◌<◌, ◌≤◌, ◌++◌, ◌∷◌, [], None, IfErr, IfOk, length};
ghost use Rattle.ordup_objects.specs.Refusals.{IsRefusal};
ghost use Rattle.ordup_objects.specs.Sets.{AreKnown, set_refusal};
ghost use Rattle.ordup_objects.specs.Sizes.{most_changes};
ghost use Rattle.ordup_objects.specs.Tables.{initial_state, object_refusal};
ghost use Rattle.ordup_rows.specs.Stages.{last_set, with_change};
ghost use Rattle.ordup_check.specs.PartialUpdates.{BeginsIllegal};

use ordup_log::Log;
use ordup_objects::{Change, MessageSet, ObjectTable, Refusal, or_give_up};
use std::alloc::{AllocError, Global};
use std::marker::Model;
use std::mem::replace;

/// The objects of a record, and its updates as far as their rows were read. The log of the record is formed meanwhile, so that
/// there is one list of updates alone.
#[derive(Drop)]
pub struct PartialUpdates {
    alloc: Global,
    objects: ObjectTable,
    begun: Option<BegunUpdates>,
}

/// One update or more.
#[derive(Drop)]
struct BegunUpdates {
    /// Those before the first that is not legal.
    log: Log,
    /// Those from it on.
    rest: Vec<MessageSet>,
    /// The last one, which is in neither: it may get more changes.
    last: MessageSet,
}

impl Model for PartialUpdates {
    ghost use Rattle.ordup_check.specs.PartialUpdates.{Updates};
    ghost use Rattle.ordup_check.specs.UpdatesInside.{ArePartial, sets_of};

    ghost Value = { Updates };

    ghost view = { λ u. record { objects = u.objects; sets = sets_of u.begun } };

    ghost invariant = { ArePartial };
}

impl PartialUpdates {
    /// No object and no update. It takes no memory.
    pub fn new(alloc: Global) -> Self
        ensures { result ≡ record { objects = []; sets = [] } }
    {
        PartialUpdates {
            alloc,
            objects: ObjectTable::new(alloc),
            begun: None,
        }
    }

    /// The objects.
    pub fn objects(&self) -> &ObjectTable
        ensures { result.now ≡ self.now.objects }
    {
        &self.objects
    }

    /// Declares an object, where no update is there. It is refused as a table of objects refuses it.
    pub fn declare(&mut self, name: &[u8], value: i64) -> Result<(), Refusal>
        requires { self.old.sets ≡ [] }
        ensures declared { IfOk result (λ _. self.new ≡ record { objects = self.old.objects ++ (name.now, value) ∷ []; sets = [] }) }
        ensures allowed { IfOk result (λ _. object_refusal self.old.objects name.now value ≡ None) }
        ensures refused { IfErr result (λ e. IsRefusal (object_refusal self.old.objects name.now value) e) }
    {
        self.objects.declare(name, value)?;
        Ok(())
    }

    /// How many updates there are.
    pub fn len(&self) -> u64
        ensures { result ≡ length self.now.sets }
    {
        match &self.begun {
            Some(begun) => begun.log.len() + begun.rest.len() as u64 + 1,
            None => 0,
        }
    }

    /// How many changes the last update has, 0 where there is no update.
    pub fn last_len(&self) -> u64
        ensures len { result ≡ length (last_set self.now.sets) }
        ensures few { result ≤ most_changes }
    {
        match &self.begun {
            Some(begun) => begun.last.changes().len() as u64,
            None => 0,
        }
    }

    /// Adds an update.
    pub fn push(&mut self, set: MessageSet) -> Result<(), AllocError>
        requires { AreKnown (length self.old.objects) set }
        ensures { IfOk result (λ _. self.new ≡ record { objects = self.old.objects; sets = self.old.sets ++ set ∷ [] }) }
    {
        match &mut self.begun {
            Some(begun) => {
                let before = replace(&mut begun.last, set);
                put(&mut begun.log, &mut begun.rest, before)
            }
            None => self.begin(set),
        }
    }

    /// Adds the first update.
    // Not inlined, since memory for what is begun would be cleared for each row.
    #[inline(never)]
    fn begin(&mut self, set: MessageSet) -> Result<(), AllocError>
        requires none { self.old.sets ≡ [] }
        requires known { AreKnown (length self.old.objects) set }
        ensures { IfOk result (λ _. self.new ≡ record { objects = self.old.objects; sets = set ∷ [] }) }
    {
        self.begun = Some(BegunUpdates {
            log: first_log(self.alloc, &self.objects)?,
            rest: Vec::new(self.alloc),
            last: set,
        });
        Ok(())
    }

    /// Adds a change to the last update. It is refused as a message set refuses it.
    pub fn add_change(&mut self, change: Change) -> Result<(), Refusal>
        requires { 0 < length self.old.sets }
        ensures added { IfOk result (λ _. self.new ≡ record { objects = self.old.objects; sets = with_change self.old.sets change }) }
        ensures allowed { IfOk result (λ _. set_refusal (length self.old.objects) (last_set self.old.sets ++ change ∷ []) ≡ None) }
        ensures refused { IfErr result (λ e. IsRefusal (set_refusal (length self.old.objects) (last_set self.old.sets ++ change ∷ [])) e) }
    {
        match &mut self.begun {
            Some(begun) => begun.last.add(&self.objects, change),
            None => Err(Refusal::Empty),
        }
    }

    /// The objects, the log of the updates before the first that is not legal, and those from it on.
    pub fn into_parts(self) -> Result<(ObjectTable, Log, Vec<MessageSet>), AllocError>
        ensures objects { IfOk result (λ p. p.0 ≡ self.objects) }
        ensures sets { IfOk result (λ p. p.1.sets ++ p.2.items ≡ self.sets) }
        ensures start { IfOk result (λ p. p.1.start ≡ initial_state self.objects) }
        ensures rest { IfOk result (λ p. BeginsIllegal p.1 p.2.items) }
    {
        let PartialUpdates {
            alloc,
            objects,
            begun,
        } = self;
        match begun {
            Some(begun) => {
                let BegunUpdates {
                    mut log,
                    mut rest,
                    last,
                } = begun;
                or_give_up!(put(&mut log, &mut rest, last), (objects, log, rest));
                Ok((objects, log, rest))
            }
            None => {
                let log = or_give_up!(first_log(alloc, &objects), objects);
                Ok((objects, log, Vec::new(alloc)))
            }
        }
    }
}

/// The log of no update over these objects.
fn first_log(alloc: Global, objects: &ObjectTable) -> Result<Log, AllocError>
    ensures { IfOk result (λ log. (log.sets ≡ []) × (log.start ≡ initial_state objects.now)) }
{
    match Log::new(alloc, objects) {
        Ok(log) => Ok(log),
        Err(_) => Err(AllocError),
    }
}

/// Puts an update behind others: into the log, where it and all before it are legal, and else behind the rest.
// Inlined: a call would move the update once more.
#[inline(always)]
fn put(log: &mut Log, rest: &mut Vec<MessageSet>, set: MessageSet) -> Result<(), AllocError>
    requires known { AreKnown (length log.old.start) set }
    requires apart { BeginsIllegal log.old rest.old.items }
    ensures sets { IfOk result (λ _. log.new.sets ++ rest.new.items ≡ (log.old.sets ++ rest.old.items) ++ set ∷ []) }
    ensures start { log.new.start ≡ log.old.start }
    ensures apart { BeginsIllegal log.new rest.new.items }
{
    if !rest.is_empty() {
        rest.push(set)?;
        return Ok(());
    }
    match log.append_or_return(set) {
        Ok(_) => Ok(()),
        Err((Refusal::OutOfRange, set)) => {
            rest.push(set)?;
            Ok(())
        }
        // Want of memory. The log is not full: a record has at most 1,000,000 updates.
        Err(_) => Err(AllocError),
    }
}
