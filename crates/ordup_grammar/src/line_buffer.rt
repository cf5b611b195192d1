//! Lines that come in pieces: where a line ends, and the part of a line that no piece has ended yet.
ghost use Rattle.std.specs.Prelude.{◌≡◌, ℕ, List, [], ◌∷◌, ◌++◌, ◌<◌, MatchOption, true, false, codes, length};
ghost use Rattle.std.specs.Str.{bytes_eq};
ghost use Rattle.ordup_grammar.specs.Actions.{Settle};
ghost use Rattle.ordup_grammar.specs.Commands.{Act};
ghost use Rattle.ordup_grammar.specs.Lines.{IsPart, cut};
ghost use Rattle.ordup_grammar.specs.Requests.{Command, is_printed, request_of};
ghost use Rattle.ordup_grammar.specs.Words.{words_of};
ghost use Rattle.std.specs.List.{list_all};

use crate::bytes::{is_spelled, printed_prefix};
use crate::prefix::Prefix;
use crate::sizes::MOST_LINE_BYTES;
use crate::words::Words;
use memchr::memchr;
use std::marker::Model;

/// The part of a line that lies within one piece of a script, without the line feed.
#[derive(Drop)]
pub struct LinePart<'a> {
    bytes: Prefix<'a>,
    /// Each of them is known to be printed.
    is_printed: bool,
}

impl<'a> Model for LinePart<'a> {
    ghost use Rattle.std.specs.Prelude.{ℕ, List};
    ghost use Rattle.ordup_grammar.specs.LineParts.{IsLinePart};

    ghost Value = { List ℕ };

    ghost view = { λ p. p.bytes };

    ghost invariant = { IsLinePart };
}

impl<'a> LinePart<'a> {
    // promise: as ScriptLine::of
    /// The part of these bytes.
    pub fn new(bytes: &'a [u8]) -> Self
        ensures { result ≡ bytes.now }
    {
        LinePart {
            bytes: Prefix::whole(bytes),
            is_printed: false,
        }
    }

    // promise: as ScriptLine::of
    /// Its bytes.
    pub fn as_bytes(&self) -> &'a [u8]
        ensures { result.now ≡ self.now }
    {
        self.bytes.as_bytes()
    }

    /// Its bytes, as a prefix of their text.
    #[inline(always)]
    pub(crate) fn prefix(&self) -> Prefix<'a>
        ensures { result ≡ self.now }
    {
        self.bytes.copy()
    }

    // promise: as ScriptLine::of
    /// Whether it is the line `settle`.
    #[inline(always)]
    pub fn is_settle(&self) -> bool
        ensures line { result ≡ bytes_eq self.now (codes "settle") }
        ensures asks { result ≡ true → request_of (cut self.now) ≡ Command (Act Settle) }
    {
        is_spelled(self.as_bytes(), b"settle")
    }

    /// Its words, where it is a line.
    #[inline(always)]
    pub(crate) fn words(&self) -> Words<'a>
        ensures { result ≡ words_of self.now }
    {
        Words::in_line(self.bytes.copy())
    }

    /// Whether each byte is printed.
    pub(crate) fn is_printed(&self) -> bool
        ensures { result ≡ list_all is_printed self.now }
    {
        self.is_printed || printed_prefix(self.as_bytes()) == self.bytes.len()
    }
}

// promise: as ScriptLine::of
/// What stands before the first line feed, and what stands after it.
///
/// Of most lines it finds in the same pass that each byte is printed: see `bytes`.
pub fn split_line(bytes: &[u8]) -> Option<(LinePart<'_>, &[u8])>
    ensures { MatchOption result (IsPart bytes.now) (λ found.
        IsPart found.0 × (bytes.now ≡ found.0 ++ 10 ∷ found.1.now)) }
{
    let printed = printed_prefix(bytes);
    if printed < bytes.len() && bytes[printed] == b'\n' {
        let part = LinePart {
            bytes: Prefix::new(bytes, printed),
            is_printed: true,
        };
        return Some((part, &bytes[printed + 1..]));
    }
    let end = memchr(b'\n', bytes)?;
    Some((LinePart::new(&bytes[..end]), &bytes[end + 1..]))
}

/// The most bytes of a line that are held: one more than a line may have, so that one which is too long stays so.
const MOST_HELD_BYTES: usize = MOST_LINE_BYTES + 1;

/// The part of a line that no line feed has ended yet: at most its first 4,097 bytes.
#[derive(Drop)]
pub struct LineBuffer {
    bytes: [u8; MOST_HELD_BYTES],
    len: usize,
}

impl Model for LineBuffer {
    ghost use Rattle.ordup_grammar.specs.Lines.{Line};
    ghost use Rattle.ordup_grammar.specs.LineBuffers.{line_of, IsBuffer};

    ghost Value = { Line };

    ghost view = { line_of };

    ghost invariant = { IsBuffer };
}

impl LineBuffer {
    ghost use Rattle.ordup_grammar.specs.LineBuffers.{Holds};

    // promise: as ScriptLine::of
    /// A buffer that holds nothing.
    pub fn new() -> Self
        ensures { Holds result [] }
    {
        LineBuffer {
            bytes: [0; MOST_HELD_BYTES],
            len: 0,
        }
    }

    // promise: as ScriptLine::of
    /// Whether it holds nothing.
    pub fn is_empty(&self) -> bool
        ensures empty { (part : List ℕ) → Holds self.now part → result ≡ true → part ≡ [] }
        ensures some { (part : List ℕ) → Holds self.now part → result ≡ false → 0 < length part }
    {
        self.len == 0
    }

    // promise: as ScriptLine::of
    /// Adds bytes to the line, which does not end among them.
    pub fn hold(&mut self, more: &[u8])
        requires { IsPart more.now }
        ensures { (part : List ℕ) → Holds self.old part → Holds self.new (part ++ more.now) }
    {
        let kept = more.len().min(MOST_HELD_BYTES - self.len);
        self.bytes[self.len..self.len + kept].copy_from_slice(&more[..kept]);
        self.len += kept;
    }

    // promise: as ScriptLine::of
    /// The line, if it ends here. Of one that is too long it is the first bytes, which are too many too.
    pub fn line(&self) -> LinePart<'_>
        ensures { cut result ≡ self.now }
    {
        LinePart::new(&self.bytes[..self.len])
    }

    // promise: as ScriptLine::of
    /// Forgets the line.
    pub fn clear(&mut self)
        ensures { Holds self.new [] }
    {
        self.len = 0;
    }
}
