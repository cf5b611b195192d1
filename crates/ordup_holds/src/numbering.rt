ghost use Rattle.std.specs.Prelude.{◌≡◌, ◌+◌, ◌↔◌, pos, None, IsNone, length, IfOk, IfErr, OnErr};
ghost use Rattle.ordup_objects.specs.Refusals.{IsRefusal};
ghost use Rattle.ordup_objects.specs.Marks.{AreMarks};
ghost use Rattle.ordup_objects.specs.Serial.{serial, with_update};
ghost use Rattle.ordup_objects.specs.Sets.{AreKnown};
ghost use Rattle.ordup_objects.specs.States.{after};
ghost use Rattle.ordup_log.specs.Appending.{append_refusal};
ghost use Rattle.ordup_query.specs.Queries.{begin_refusal};
ghost use Rattle.ordup_conditions.specs.Conditions.{AreMet, AreConditionsKnown, first_unmet};
ghost use Rattle.ordup_holds.specs.Numbering.{IsTurn, IsNotNumbered, last_state, with_numbered};

use crate::book::Book;
use crate::proposal_error::ProposalError;
use crate::turning::turn;
use ordup_conditions::{Condition, first_unmet};
use ordup_feed::{Sender, Sends};
use ordup_log::Log;
use ordup_objects::{MessageSet, Refusal};
use ordup_query::Query;
use ordup_query::sizes::GREATEST_IMPORT_LIMIT;

// promise: just the given set is numbered, or refused in order
/// Numbers a message set as the next update of a book's log, and answers its number.
///
/// It is refused `LogFull` after 1,000,000 updates, `OutOfRange` where a result is out of range, and `NoMemory`.
pub fn number<E: Sends>(book: &mut Book<E>, set: MessageSet) -> Result<u64, Refusal>
    requires { AreKnown (length book.old.primary.log.start) set }
    ensures number { IfOk result (λ k. k ≡ length book.old.primary.log.sets + 1) }
    ensures added { IfOk result (λ _. book.new ≡ record book.old { primary = record book.old.primary { log = with_update book.old.primary.log set } }) }
    ensures allowed { IfOk result (λ _. append_refusal book.old.primary.log set ≡ None) }
    ensures refused { IfErr result (λ e. IsRefusal (append_refusal book.old.primary.log set) e) }
    ensures err { OnErr result (book.new ≡ book.old) }
{
    book.primary.keeps();
    let number = book.primary.propose(set)?;
    Ok(number)
}

/// The answer of the hold in which a set was numbered.
#[derive(Drop)]
pub struct Numbered {
    /// The number of the update.
    pub number: u64,
    /// What the first turn after it answered: how many updates are acknowledged, or that a growth was refused.
    pub turn: Result<u64, Refusal>,
}

// promise number turn log allowed refused err: one hold numbers just the given set and makes a turn; an error leaves the book
/// Numbers a message set as the next update of a book's log, and makes one turn after it.
///
/// It is refused as `number` is, and then nothing was numbered. Where the turn is refused a growth, the update stands.
pub fn number_and_turn<H, E: Sender<H>>(
    rt: &H,
    book: &mut Book<E>,
    set: MessageSet,
) -> Result<Numbered, Refusal>
    requires { AreKnown (length book.old.primary.log.start) set }
    ensures number { IfOk result (λ it. it.number ≡ length book.old.primary.log.sets + 1) }
    ensures turn { IfOk result (λ it. IsTurn (with_numbered book.old set) book.new it.turn) }
    ensures log { IfOk result (λ _. book.new.primary.log ≡ with_update book.old.primary.log set) }
    ensures allowed { IfOk result (λ _. append_refusal book.old.primary.log set ≡ None) }
    ensures refused { IfErr result (λ e. IsRefusal (append_refusal book.old.primary.log set) e) }
    ensures err { OnErr result (book.new ≡ book.old) }
{
    let number = number(book, set)?;
    let turn = turn(rt, book);
    Ok(Numbered { number, turn })
}

// promise number turn log allowed met refused err: a set with conditions is numbered only if the state after it meets them all
/// The same of a message set with conditions: it is numbered only where the state after it meets them all.
///
/// Where it is not numbered, the book stays as it was. The first condition that would not be met comes before each refusal of the set.
pub fn number_if_and_turn<H, E: Sender<H>>(
    rt: &H,
    book: &mut Book<E>,
    set: MessageSet,
    conditions: &[Condition],
) -> Result<Numbered, ProposalError>
    requires set { AreKnown (length book.old.primary.log.start) set }
    requires conditions { AreConditionsKnown (length book.old.primary.log.start) conditions.now }
    ensures number { IfOk result (λ it. it.number ≡ length book.old.primary.log.sets + 1) }
    ensures turn { IfOk result (λ it. IsTurn (with_numbered book.old set) book.new it.turn) }
    ensures log { IfOk result (λ _. book.new.primary.log ≡ with_update book.old.primary.log set) }
    ensures allowed { IfOk result (λ _. append_refusal book.old.primary.log set ≡ None) }
    ensures met { IfOk result (λ it. AreMet (serial book.new.primary.log it.number) conditions.now) }
    ensures refused { IfErr result (IsNotNumbered book.old.primary.log set conditions.now) }
    ensures err { OnErr result (book.new ≡ book.old) }
{
    match unmet(book.primary().log(), &set, conditions) {
        Some(index) => {
            drop(set);
            Err(ProposalError::Unmet(index))
        }
        None => match number_and_turn(rt, book, set) {
            Ok(numbered) => Ok(numbered),
            Err(refusal) => Err(ProposalError::Refused(refusal)),
        },
    }
}

/// The index of the first condition that the state after a set would not meet, as the next one of a log, if there is one.
fn unmet(log: &Log, set: &MessageSet, conditions: &[Condition]) -> Option<usize>
    requires set { AreKnown (length log.now.start) set.now }
    requires conditions { AreConditionsKnown (length log.now.start) conditions.now }
    ensures first { result ≡ first_unmet (after set.now (last_state log.now)) conditions.now }
    ensures met { IsNone result ↔ AreMet (after set.now (last_state log.now)) conditions.now }
{
    first_unmet(log.end(), set, conditions)
}

// promise: a query begins at what is acknowledged, or its limit or memory is refused
/// Begins a query with this import limit, 0 to 10^18, whose reference is what is acknowledged now.
///
/// It is refused `OutOfRange` for the limit, and `NoMemory`.
pub fn begin<E: Sends>(book: &Book<E>, limit: u64) -> Result<Query, Refusal>
    ensures query { IfOk result (λ query. query ≡ record { place = book.now.primary.acked; marks = query.marks; limit = limit; sum = pos 0; total = 0; reads = 0 }) }
    ensures count { IfOk result (λ query. length query.marks ≡ length book.now.primary.log.start) }
    ensures marks { IfOk result (λ query. AreMarks book.now.primary.log book.now.primary.acked query.marks) }
    ensures allowed { IfOk result (λ _. begin_refusal limit ≡ None) }
    ensures refused { IfErr result (λ e. IsRefusal (begin_refusal limit) e) }
{
    if limit > GREATEST_IMPORT_LIMIT {
        return Err(Refusal::OutOfRange);
    }
    let marks = book.primary.marks()?;
    Query::begin(book.primary.acked(), marks, limit)
}
