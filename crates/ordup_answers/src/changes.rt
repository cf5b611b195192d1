//! The message sets that words of changes spell. A number that 64 bits do not hold is taken as the nearest one that they hold,
//! which is out of range too.
ghost use Rattle.std.specs.Prelude.{◌≡◌, ◌∷◌, true, false, Err, IfOk, IfErr, length, if◌then◌else◌};
ghost use Rattle.ordup_grammar.specs.ChangeWords.{are_changes, changes_of};
ghost use Rattle.ordup_answers.specs.Changes.{op_in, change_in, changes_in, set_in};
ghost use Rattle.ordup_answers.specs.NearestNumbers.{nearest_operation, nearest_change, nearest_changes};
ghost use Rattle.ordup_answers.specs.Refusals.{Gives};

use crate::names::find_object;
use ordup_grammar::{ChangeWord, Operation, Words};
use ordup_objects::{Change, MessageSet, ObjectTable, Op, Refusal};
use std::alloc::Allocator;

/// The operation that is spelled.
fn op_in<A: Allocator + Copy>(objects: &ObjectTable<A>, operation: &Operation<'_>) -> Op
    ensures { result ≡ op_in objects.now (nearest_operation operation.now) }
{
    match operation {
        Operation::WithNumber(kind, number) => kind.with(number.value()),
        Operation::Take(name) => Op::Take(find_object(objects, name)),
    }
}

/// The change that a word spells.
fn change_in<A: Allocator + Copy>(objects: &ObjectTable<A>, word: &ChangeWord<'_>) -> Change
    ensures { result ≡ change_in objects.now (nearest_change word.now) }
{
    Change {
        object: find_object(objects, &word.object),
        op: op_in(objects, &word.operation),
    }
}

/// A first change, and those that the words behind it spell. It is refused `Syntax` where one of them spells no change, and else
/// `NoMemory`.
// It stays out of `set_in`, since most sets have a single change.
#[inline(never)]
fn changes_after<A: Allocator + Copy>(
    alloc: A,
    objects: &ObjectTable<A>,
    first: Change,
    words: &Words<'_>,
) -> Result<Vec<Change, A>, Refusal>
    ensures spelled { IfOk result (λ _. are_changes words.now ≡ true) }
    ensures changes { IfOk result (λ changes. changes.items ≡ first ∷ changes_in objects.now (nearest_changes (changes_of words.now))) }
    ensures refused { IfErr result (λ e. e ≡ (if are_changes words.now then Refusal.NoMemory else Refusal.Syntax)) }
{
    let mut rest = words.copy();
    let Ok(mut changes) = Vec::with_capacity(alloc, count(words) + 1) else {
        return Err(syntax_or(words, Refusal::NoMemory));
    };
    changes.push_reserved(first);
    while let Some((word, more)) = rest.split_first() {
        let Some(change) = ChangeWord::parse(&word) else {
            return Err(Refusal::Syntax);
        };
        changes.push_reserved(change_in(objects, &change));
        rest = more;
    }
    Ok(changes)
}

/// How many words there are.
fn count(words: &Words<'_>) -> usize
    ensures { result ≡ length words.now }
{
    let mut count = 0;
    let mut rest = words.copy();
    while let Some((_word, more)) = rest.split_first() {
        count += 1;
        rest = more;
    }
    count
}

/// Why a proposal of these words is refused, where it is for another reason unless one of them spells no change.
pub(crate) fn syntax_or(words: &Words<'_>, other: Refusal) -> Refusal
    ensures { result ≡ (if are_changes words.now then other else Refusal.Syntax) }
{
    let mut rest = words.copy();
    while let Some((word, more)) = rest.split_first() {
        if ChangeWord::parse(&word).is_none() {
            return Refusal::Syntax;
        }
        rest = more;
    }
    other
}

// promise set syntax: the words of a proposal make its set, or are refused as that; `Syntax` comes first
/// The message set that the words of a proposal spell.
///
/// Where one of them spells no change, it is refused `Syntax`. Else it is the set of the changes that the words spell, or it is
/// refused as `MessageSet::new` refuses these, or with `NoMemory`.
// Each change is read once: `Syntax` comes before all else, since the set is made when the last word was read.
#[inline(always)]
pub fn set_in<A: Allocator + Copy>(
    alloc: A,
    objects: &ObjectTable<A>,
    words: &Words<'_>,
) -> Result<MessageSet<A>, Refusal>
    ensures syntax { are_changes words.now ≡ false → result ≡ Err Refusal.Syntax }
    ensures set { are_changes words.now ≡ true → Gives (set_in objects.now (changes_of words.now)) result }
{
    let Some((word, rest)) = words.split_first() else {
        return Err(Refusal::Empty);
    };
    let Some(word) = ChangeWord::parse(&word) else {
        return Err(Refusal::Syntax);
    };
    let change = change_in(objects, &word);
    // Most sets have a single change, and take no memory for a list.
    if rest.is_empty() {
        return MessageSet::single(objects, change);
    }
    match changes_after(alloc, objects, change, &rest) {
        Ok(changes) => MessageSet::new(objects, changes),
        Err(refusal) => Err(refusal),
    }
}
