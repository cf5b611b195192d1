//! What is left of a text while it is read.
ghost use Rattle.std.specs.Prelude.{◌≡◌, ◌<◌, ◌==◌, ℕ, List, length, MatchOption, IfSome, ◌∷◌, []};
ghost use Rattle.std.specs.List.{position_or_len};
ghost use Rattle.ordup_entries.specs.Parts.{parts_of};
ghost use Rattle.ordup_entries.specs.Fields.{is_space, first_word, word_at};

use ordup_grammar::Word;
use std::marker::Model;

/// What is left of a line, or of an entry.
#[derive(Drop)]
pub struct Text<'a> {
    bytes: &'a [u8],
}

impl<'a> Model for Text<'a> {
    ghost Value = { List ℕ };

    ghost view = { λ t. t.bytes.now };
}

impl<'a> Text<'a> {
    /// The text of these bytes.
    pub fn new(bytes: &'a [u8]) -> Self
        ensures { result ≡ bytes.now }
    {
        Text { bytes }
    }

    /// Its bytes.
    pub fn as_bytes(&self) -> &'a [u8]
        ensures { result.now ≡ self.now }
    {
        self.bytes
    }

    /// Whether nothing is left.
    pub(crate) fn is_empty(&self) -> bool
        ensures { result ≡ (length self.now == 0) }
    {
        self.bytes.is_empty()
    }

    /// The line up to the first line feed, and what is behind that.
    pub(crate) fn line_and_rest(&self) -> Option<(Text<'a>, Text<'a>)>
        ensures parts { MatchOption result (parts_of self.now ≡ self.now ∷ []) (λ found. parts_of self.now ≡ found.0 ∷ parts_of found.1) }
        ensures shorter { IfSome result (λ found. length found.1 < length self.now) }
    {
        let end = index_of(self.bytes, b'\n');
        if end == self.bytes.len() {
            return None;
        }
        Some((
            Text::new(&self.bytes[..end]),
            Text::new(&self.bytes[end + 1..]),
        ))
    }

    /// The bytes up to the first space, and those from it on.
    pub(crate) fn first_word(&self) -> (Word<'a>, Text<'a>)
        ensures { result ≡ first_word self.now }
    {
        let end = index_of(self.bytes, b' ');
        (Word::new(&self.bytes[..end]), Text::new(&self.bytes[end..]))
    }

    /// The word behind a space, and what is left.
    pub(crate) fn word(&self) -> Option<(Word<'a>, Text<'a>)>
        ensures { result ≡ word_at self.now }
    {
        let [b' ', rest @ ..] = self.bytes else {
            return None;
        };
        Some(Text::new(rest).first_word())
    }
}

/// The index of the first of these bytes, or the number of the bytes where there is none.
pub(crate) fn index_of(bytes: &[u8], wanted: u8) -> usize
    ensures { result ≡ position_or_len (λ byte. byte == wanted) bytes.now }
{
    let mut index = 0;
    while index < bytes.len() && bytes[index] != wanted {
        index += 1;
    }
    index
}
