ghost use Rattle.std.specs.Prelude.{◌≡◌, ◌≤◌, ◌∷◌, ◌++◌, [], ◌==◌, ℕ, List, MatchOption, drop, false, length, take};
ghost use Rattle.std.specs.List.{position_or_len, slice_split};
ghost use Rattle.std.specs.Str.{bytes_eq};
ghost use Rattle.ordup_grammar.specs.Words.{begins_with, words_of};

use crate::bytes::{index_of, is_spelled};
use std::marker::Model;

/// The first bytes of a text.
///
/// As a rule more bytes stand behind them in the text. So they are looked at sixteen at once, whatever their number: see `bytes`.
#[derive(Drop)]
pub(crate) struct Prefix<'a> {
    text: &'a [u8],
    len: usize,
}

impl<'a> Model for Prefix<'a> {
    ghost Value = { List ℕ };

    ghost view = { λ f. take f.len f.text.now };

    ghost invariant = { λ f. f.len ≤ length f.text.now };
}

impl<'a> Prefix<'a> {
    /// The first `len` bytes of a text.
    #[inline(always)]
    pub(crate) fn new(text: &'a [u8], len: usize) -> Self
        requires { len ≤ length text.now }
        ensures { result ≡ take len text.now }
    {
        Prefix { text, len }
    }

    /// All bytes of a text.
    #[inline(always)]
    pub(crate) fn whole(text: &'a [u8]) -> Self
        ensures { result ≡ text.now }
    {
        Prefix::new(text, text.len())
    }

    /// The bytes.
    #[inline(always)]
    pub(crate) fn as_bytes(&self) -> &'a [u8]
        ensures { result.now ≡ self.now }
    {
        &self.text[..self.len]
    }

    /// How many bytes there are.
    #[inline(always)]
    pub(crate) fn len(&self) -> usize
        ensures len { result ≡ length self.now }
        // No text has more bytes.
        ensures few { length self.now ≤ 9223372036854775807 }
    {
        self.len
    }

    /// A copy of the prefix. Its bytes are not copied.
    #[inline(always)]
    pub(crate) fn copy(&self) -> Prefix<'a>
        ensures { result ≡ self.now }
    {
        Prefix::new(self.text, self.len)
    }

    /// The bytes up to an index.
    #[inline(always)]
    pub(crate) fn up_to(&self, end: usize) -> Prefix<'a>
        requires { end ≤ length self.now }
        ensures { result ≡ take end self.now }
    {
        Prefix::new(self.text, end)
    }

    /// The bytes from an index on.
    #[inline(always)]
    pub(crate) fn from(&self, start: usize) -> Prefix<'a>
        requires { start ≤ length self.now }
        ensures { result ≡ drop start self.now }
    {
        Prefix::new(&self.text[start..], self.len - start)
    }

    /// The index of the first of these bytes, or the number of the bytes where there is none.
    #[inline(always)]
    pub(crate) fn index_of(&self, wanted: u8) -> usize
        ensures { result ≡ position_or_len (λ byte. byte == wanted) self.now }
    {
        index_of(self.text, self.len, wanted)
    }

    /// Whether the first byte is this one.
    #[inline(always)]
    pub(crate) fn begins_with(&self, byte: u8) -> bool
        ensures { result ≡ begins_with byte self.now }
    {
        self.len > 0 && self.text[0] == byte
    }

    /// What stands behind these bytes, if it begins with them.
    #[inline(always)]
    pub(crate) fn strip_prefix(&self, prefix: &[u8]) -> Option<Prefix<'a>>
        requires { (4 ≤ length prefix.now) × (length prefix.now ≤ 8) }
        ensures { MatchOption result (bytes_eq (take (length prefix.now) self.now) prefix.now ≡ false) (λ rest.
            self.now ≡ prefix.now ++ rest) }
    {
        if self.len < prefix.len() || !is_spelled(&self.text[..prefix.len()], prefix) {
            return None;
        }
        Some(self.from(prefix.len()))
    }

    /// The bytes without the spaces that they begin with.
    #[tactic(auto, using(crate::proofs::Splits::words_without_space, crate::proofs::Splits::begins_some))]
    #[inline(always)]
    pub(crate) fn without_spaces(&self) -> Prefix<'a>
        ensures words { words_of result ≡ words_of self.now }
        ensures first { begins_with 32 result ≡ false }
    {
        let mut prefix = self.copy();
        while prefix.begins_with(b' ') {
            prefix = prefix.from(1);
        }
        prefix
    }

    /// What stands before the first separator, and what stands after it.
    #[inline(always)]
    pub(crate) fn split_once(&self, separator: u8) -> Option<(Prefix<'a>, Prefix<'a>)>
        ensures { let parts = slice_split (λ byte. byte == separator) in
            MatchOption result (parts self.now ≡ self.now ∷ []) (λ found.
            parts self.now ≡ found.0 ∷ parts found.1) }
    {
        let end = self.index_of(separator);
        if end == self.len {
            return None;
        }
        Some((self.up_to(end), self.from(end + 1)))
    }
}
