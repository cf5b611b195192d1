ghost use Rattle.std.specs.Prelude.{◌≡◌, ◌∷◌, ◌==◌, MatchOption, None, is_some, position, if◌then◌else◌};
ghost use Rattle.std.specs.List.{slice_split};
ghost use Rattle.ordup_grammar.specs.ChangeWords.{change_of};
ghost use Rattle.ordup_grammar.specs.Operations.{kind_text, operation_of};

use crate::number::Number;
use crate::prefix::Prefix;
use crate::words::Word;
use ordup_objects::NumberOp;

/// A change of one object, as a word such as `add:x:5` or `take:x:y` spells it.
#[derive(Drop)]
pub struct ChangeWord<'a> {
    /// The object's name: at least one byte, and no colon.
    pub object: Word<'a>,
    /// What happens to the object.
    pub operation: Operation<'a>,
}

impl<'a> ChangeWord<'a> {
    // promise: as Keyword::of
    /// The change that a word spells: a kind, an object of at least one byte and an operand, between colons.
    #[inline(always)]
    pub fn parse(word: &Word<'a>) -> Option<ChangeWord<'a>>
        ensures { result ≡ change_of word.now }
    {
        let (kind, rest) = Kind::split(&word.prefix())?;
        let (object, operand) = rest.split_once(b':')?;
        if object.len() == 0 {
            return None;
        }
        let operation = Operation::parse(kind, operand)?;
        Some(ChangeWord {
            object: Word::of(object),
            operation,
        })
    }
}

/// What a change does to its object's value.
#[derive(Drop)]
pub enum Operation<'a> {
    /// A change by a number, as `add:X:n`.
    WithNumber(NumberOp, Number),
    /// `take:X:Y`: the value becomes that of Y before the update.
    Take(Word<'a>),
}

impl<'a> Operation<'a> {
    /// The operation of a kind, with what stands behind the second colon. The operand is a single part where it has no colon itself. A
    /// number has none.
    #[inline(always)]
    pub(crate) fn parse(kind: Kind, operand: Prefix<'a>) -> Option<Operation<'a>>
        ensures { result ≡ (if is_some (position (λ byte. byte == 58) operand.entry) then None else operation_of (kind_text kind) operand.entry) }
    {
        match kind {
            Kind::WithNumber(op) => {
                let number = Number::parse(operand.as_bytes())?;
                Some(Operation::WithNumber(op, number))
            }
            Kind::Take => {
                if operand.len() == 0 || operand.index_of(b':') < operand.len() {
                    return None;
                }
                Some(Operation::Take(Word::of(operand)))
            }
        }
    }
}

/// The kind of a change, as the first part of a change word spells it.
#[derive(Drop)]
pub(crate) enum Kind {
    /// By a number: `add`, `set`, `mul`, `max` or `min`.
    WithNumber(NumberOp),
    /// `take`.
    Take,
}

impl Kind {
    /// The kind of a change word, and what stands behind its first colon.
    #[inline(always)]
    pub(crate) fn split<'a>(word: &Prefix<'a>) -> Option<(Kind, Prefix<'a>)>
        ensures { MatchOption result (change_of word.now ≡ None) (λ found.
            slice_split (λ byte. byte == 58) word.now ≡ kind_text found.0 ∷ slice_split (λ byte. byte == 58) found.1) }
    {
        if let Some(rest) = word.strip_prefix(b"add:") {
            Some((Kind::WithNumber(NumberOp::Add), rest))
        } else if let Some(rest) = word.strip_prefix(b"set:") {
            Some((Kind::WithNumber(NumberOp::Set), rest))
        } else if let Some(rest) = word.strip_prefix(b"mul:") {
            Some((Kind::WithNumber(NumberOp::Mul), rest))
        } else if let Some(rest) = word.strip_prefix(b"max:") {
            Some((Kind::WithNumber(NumberOp::Max), rest))
        } else if let Some(rest) = word.strip_prefix(b"min:") {
            Some((Kind::WithNumber(NumberOp::Min), rest))
        } else if let Some(rest) = word.strip_prefix(b"take:") {
            Some((Kind::Take, rest))
        } else {
            None
        }
    }
}
