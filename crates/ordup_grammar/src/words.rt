ghost use Rattle.std.specs.Prelude.{◌≡◌, ◌≤◌, [], ◌∷◌, ◌==◌, ℕ, List, MatchOption, length};
ghost use Rattle.ordup_grammar.specs.Words.{words_of, only_word, two_words, name_and_number, only_number};

use crate::number::Number;
use crate::prefix::Prefix;
use std::marker::Model;

/// A word of a line, or the part of one that is a name. It may name nothing.
#[derive(Drop)]
pub struct Word<'a> {
    bytes: Prefix<'a>,
}

impl<'a> Model for Word<'a> {
    ghost Value = { List ℕ };

    ghost view = { λ w. w.bytes };
}

impl<'a> Word<'a> {
    // promise: as Keyword::of
    /// The word of these bytes.
    pub fn new(bytes: &'a [u8]) -> Self
        ensures { result ≡ bytes.now }
    {
        Word::of(Prefix::whole(bytes))
    }

    /// The word of these bytes, which are a prefix of their text.
    #[inline(always)]
    pub(crate) fn of(bytes: Prefix<'a>) -> Self
        ensures { result ≡ bytes.entry }
    {
        Word { bytes }
    }

    // promise: as Keyword::of
    /// Its bytes.
    #[inline(always)]
    pub fn as_bytes(&self) -> &'a [u8]
        ensures { result.now ≡ self.now }
    {
        self.bytes.as_bytes()
    }

    /// Its bytes, as a prefix of their text.
    #[inline(always)]
    pub(crate) fn prefix(&self) -> Prefix<'a>
        ensures { result ≡ self.now }
    {
        self.bytes.copy()
    }
}

/// The words of a line, or those of them that are left. Words stand between spaces.
#[derive(Drop)]
pub struct Words<'a> {
    line: Prefix<'a>,
}

impl<'a> Model for Words<'a> {
    ghost Value = { List (List ℕ) };

    ghost view = { λ w. words_of w.line };
}

impl<'a> Words<'a> {
    /// The words of a line, which is a prefix of its text.
    #[inline(always)]
    pub(crate) fn in_line(line: Prefix<'a>) -> Self
        ensures { result ≡ words_of line.entry }
    {
        Words { line }
    }

    // promise: as Keyword::of
    /// A copy of the words. There is at most one more of them than the line has bytes.
    #[inline(always)]
    pub fn copy(&self) -> Words<'a>
        ensures same { result ≡ self.now }
        ensures few { length self.now ≤ 9223372036854775808 }
    {
        // For the proof: a line has few bytes.
        let _len = self.line.len();
        Words::in_line(self.line.copy())
    }

    // promise: as Keyword::of
    /// Whether there is no word.
    #[inline(always)]
    pub fn is_empty(&self) -> bool
        ensures { result ≡ (length self.now == 0) }
    {
        self.line.without_spaces().len() == 0
    }

    // promise: as Keyword::of
    /// The first word and those after it, if there is a word.
    #[tactic(auto, using(crate::proofs::Splits::first_word, crate::proofs::Splits::index_within))]
    #[inline(always)]
    pub fn split_first(&self) -> Option<(Word<'a>, Words<'a>)>
        ensures { MatchOption result (self.now ≡ []) (λ found. self.now ≡ found.0 ∷ found.1) }
    {
        let line = self.line.without_spaces();
        if line.len() == 0 {
            return None;
        }
        let end = line.index_of(b' ');
        Some((Word::of(line.up_to(end)), Words::in_line(line.from(end))))
    }

    // promise: as Keyword::of
    /// The word, where there is exactly one.
    #[inline(always)]
    pub fn only_word(&self) -> Option<Word<'a>>
        ensures { result ≡ only_word self.now }
    {
        let (word, rest) = self.split_first()?;
        if rest.is_empty() { Some(word) } else { None }
    }

    // promise: as Keyword::of
    /// The words, where there are exactly two.
    #[inline(always)]
    pub fn two_words(&self) -> Option<(Word<'a>, Word<'a>)>
        ensures { result ≡ two_words self.now }
    {
        let (word, rest) = self.split_first()?;
        let next = rest.only_word()?;
        Some((word, next))
    }

    // promise: as Keyword::of
    /// The name and the number, where there are exactly these two words.
    pub fn name_and_number(&self) -> Option<(Word<'a>, Number)>
        ensures { result ≡ name_and_number self.now }
    {
        let (name, word) = self.two_words()?;
        let number = Number::parse(word.as_bytes())?;
        Some((name, number))
    }

    /// The number, where it is the only word.
    pub(crate) fn only_number(&self) -> Option<Number>
        ensures { result ≡ only_number self.now }
    {
        Number::parse(self.only_word()?.as_bytes())
    }
}
