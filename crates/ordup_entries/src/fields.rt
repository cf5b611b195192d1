//! The fields of a line, from what is left of it.
ghost use Rattle.std.specs.Prelude.{◌≡◌, length};
ghost use Rattle.std.specs.List.{list_all};
ghost use Rattle.std.specs.Str.{bytes_eq};
ghost use Rattle.ordup_objects.specs.Names.{is_name};
ghost use Rattle.ordup_entries.specs.Words.{is_word, is_word_byte, is_client, is_client_byte, is_changes, is_printed, within};
ghost use Rattle.ordup_entries.specs.Fields.{tested_at, number_at, number_within, text_at, last, behind};

use crate::sizes::{MOST_CHANGES_BYTES, MOST_CLIENT_BYTES};
use crate::text::Text;
use ordup_grammar::{Number, Word};
use ordup_objects::Name;

impl<'a> Text<'a> {
    /// The name of a client, and what is left.
    pub(crate) fn client(&self) -> Option<(Word<'a>, Text<'a>)>
        ensures { result ≡ tested_at is_client self.now }
    {
        let (word, rest) = self.word()?;
        if is_client(word.as_bytes()) {
            Some((word, rest))
        } else {
            None
        }
    }

    /// A name, and what is left.
    pub(crate) fn name(&self) -> Option<(Word<'a>, Text<'a>)>
        ensures { result ≡ tested_at is_name self.now }
    {
        let (word, rest) = self.word()?;
        if is_name(word.as_bytes()) {
            Some((word, rest))
        } else {
            None
        }
    }

    /// A word of at most so many bytes, and what is left.
    pub(crate) fn word_within(&self, most: usize) -> Option<(Word<'a>, Text<'a>)>
        ensures { result ≡ tested_at (is_word most) self.now }
    {
        let (word, rest) = self.word()?;
        if is_word(word.as_bytes(), most) {
            Some((word, rest))
        } else {
            None
        }
    }

    /// A number from one to another, and what is left.
    pub(crate) fn number(&self, least: u64, most: u64) -> Option<(u64, Text<'a>)>
        ensures { result ≡ number_at least most self.now }
    {
        let (word, rest) = self.word()?;
        let number = number_within(word.as_bytes(), least, most)?;
        Some((number, rest))
    }

    /// What is left behind this word.
    pub(crate) fn behind(&self, wanted: &[u8]) -> Option<Text<'a>>
        ensures { result ≡ behind wanted.now self.now }
    {
        let (word, rest) = self.word()?;
        if word.as_bytes() == wanted {
            Some(rest)
        } else {
            None
        }
    }

    /// The rest of the line behind a space.
    pub(crate) fn line(&self) -> Option<Text<'a>>
        ensures { result ≡ text_at self.now }
    {
        let [b' ', rest @ ..] = self.as_bytes() else {
            return None;
        };
        if is_changes(rest) {
            Some(Text::new(rest))
        } else {
            None
        }
    }

    /// A name that ends the line.
    pub(crate) fn last_name(&self) -> Option<Word<'a>>
        ensures { result ≡ last (tested_at is_name) self.now }
    {
        let (name, rest) = self.name()?;
        if rest.is_empty() { Some(name) } else { None }
    }

    /// A word of at most so many bytes that ends the line.
    pub(crate) fn last_word(&self, most: usize) -> Option<Word<'a>>
        ensures { result ≡ last (tested_at (is_word most)) self.now }
    {
        let (word, rest) = self.word_within(most)?;
        if rest.is_empty() { Some(word) } else { None }
    }

    /// A number from one to another that ends the line.
    pub(crate) fn last_number(&self, least: u64, most: u64) -> Option<u64>
        ensures { result ≡ last (number_at least most) self.now }
    {
        let (number, rest) = self.number(least, most)?;
        if rest.is_empty() { Some(number) } else { None }
    }
}

/// Whether a word is spelled so.
pub(crate) fn is_spelled(word: &[u8], wanted: &[u8]) -> bool
    ensures { result ≡ bytes_eq word.now wanted.now }
{
    word == wanted
}

/// The number that a word writes, where it lies from one to another.
fn number_within(word: &[u8], least: u64, most: u64) -> Option<u64>
    ensures { result ≡ number_within least most word.now }
{
    let number = Number::parse(word)?.amount();
    if least <= number && number <= most {
        Some(number)
    } else {
        None
    }
}

/// Whether a word is a name.
fn is_name(word: &[u8]) -> bool
    ensures { result ≡ is_name word.now }
{
    Name::new(word).is_ok()
}

/// Whether a word may be the name of a client: 1 to 64 of a to z, 0 to 9, `_` and `-`.
fn is_client(word: &[u8]) -> bool
    ensures { result ≡ is_client word.now }
{
    1 <= word.len() && word.len() <= MOST_CLIENT_BYTES && are_client_bytes(word)
}

fn are_client_bytes(bytes: &[u8]) -> bool
    ensures { result ≡ list_all is_client_byte bytes.now }
{
    bytes.iter().all(|byte| is_client_byte(*byte))
}

fn is_client_byte(byte: u8) -> bool
    ensures { result ≡ is_client_byte byte }
{
    (97 <= byte && byte <= 122) || (48 <= byte && byte <= 57) || byte == 95 || byte == 45
}

/// Whether a word has 1 to so many bytes, which are printed.
fn is_word(word: &[u8], most: usize) -> bool
    ensures { result ≡ is_word most word.now }
{
    1 <= word.len() && word.len() <= most && are_word_bytes(word)
}

fn are_word_bytes(bytes: &[u8]) -> bool
    ensures { result ≡ list_all is_word_byte bytes.now }
{
    bytes.iter().all(|byte| is_word_byte(*byte))
}

fn is_word_byte(byte: u8) -> bool
    ensures { result ≡ is_word_byte byte }
{
    33 <= byte && byte <= 126
}

/// Whether a text may be a declaration, or the changes of a request.
fn is_changes(text: &[u8]) -> bool
    ensures { result ≡ is_changes text.now }
{
    text.len() <= MOST_CHANGES_BYTES && are_printed(text)
}

fn are_printed(bytes: &[u8]) -> bool
    ensures { result ≡ list_all is_printed bytes.now }
{
    bytes.iter().all(|byte| is_printed(*byte))
}

fn is_printed(byte: u8) -> bool
    ensures { result ≡ is_printed byte }
{
    32 <= byte && byte <= 126
}
