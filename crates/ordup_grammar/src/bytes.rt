//! Several bytes at once: the tricks with bytes that make it cheap to read a line.
//!
//! Words and lines are short and differ in length, so the end of a loop over their bytes is a branch that the processor does not
//! foresee. The functions here look at a block of bytes at once instead. The last block may overlap the one before.
//!
//! - **Where a line ends, and whether all of it is printed** (`printed_prefix`, sixteen bytes at a time): the first byte that is
//!   not printed is as a rule the line feed, so `split_line` finds both in one pass. Only where it is another byte does `memchr`
//!   look for the line feed.
//! - **Where a word ends** (`index_of`): one comparison of sixteen bytes, whatever the length of the word. As a rule more bytes
//!   stand behind a word (`Prefix`), so there are sixteen. Only at the end of a piece, or in a longer word, `memchr` looks for the
//!   end.
//! - **Whether a word is a keyword, or begins with a kind of change** (`is_spelled`, two comparisons of four bytes): a comparison of
//!   slices would be a call. The compiler makes one jump by the length of the keywords.
//!
//! `bench/NOTES.md` has what each brings.
ghost use Rattle.std.specs.Prelude.{◌≡◌, ◌+◌, ◌≤◌, ◌==◌, length, not, take, drop, true};
ghost use Rattle.std.specs.List.{position_or_len, prefix_len};
ghost use Rattle.std.specs.Int.{w32, w64, from_le_bytes};
ghost use Rattle.std.specs.Str.{bytes_eq};
ghost use Rattle.ordup_grammar.specs.Requests.{is_printed};

use memchr::memchr;
use std::simd::prelude::*;

/// How many bytes `printed_prefix` looks at at once.
const BLOCK: usize = 16;

/// Whether a byte may stand in a line: whether it lies from space to tilde.
fn is_printed(byte: u8) -> bool
    ensures { result ≡ is_printed byte }
{
    byte >= 32 && byte <= 126
}

/// How many bytes are printed before the first that is not.
pub(crate) fn printed_prefix(bytes: &[u8]) -> usize
    ensures { result ≡ prefix_len is_printed bytes.now }
{
    let mut index = 0;
    while bytes.len() - index >= BLOCK {
        let printed = printed_in_block(bytes, index);
        if printed < BLOCK {
            return index + printed;
        }
        index += BLOCK;
    }
    while index < bytes.len() && is_printed(bytes[index]) {
        index += 1;
    }
    index
}

/// How many bytes of the block that begins at an index are printed before the first that is not.
#[inline(always)]
fn printed_in_block(bytes: &[u8], index: usize) -> usize
    requires { index + 16 ≤ length bytes.now }
    ensures { result ≡ prefix_len is_printed (take 16 (drop index bytes.now)) }
{
    let lanes = u8x16::from_slice(&bytes[index..]);
    let unprinted = (lanes - u8x16::splat(32))
        .simd_ge(u8x16::splat(95))
        .to_bitmask();
    if unprinted == 0 {
        return BLOCK;
    }
    unprinted.trailing_zeros() as usize
}

/// The index of the first of these bytes among the first `len` of a text, or `len` where there is none.
#[inline(always)]
pub(crate) fn index_of(text: &[u8], len: usize, wanted: u8) -> usize
    requires { len ≤ length text.now }
    ensures { result ≡ position_or_len (λ byte. byte == wanted) (take len text.now) }
{
    if text.len() >= BLOCK {
        let index = before_in_block(text, wanted);
        if index < BLOCK || len <= BLOCK {
            return index.min(len);
        }
    }
    index_in(&text[..len], wanted)
}

/// How many of the first sixteen bytes of a text stand before the first of these bytes.
#[inline(always)]
fn before_in_block(text: &[u8], wanted: u8) -> usize
    requires { 16 ≤ length text.now }
    ensures { result ≡ prefix_len (λ byte. not (byte == wanted)) (take 16 text.now) }
{
    let found = u8x16::from_slice(text)
        .simd_eq(u8x16::splat(wanted))
        .to_bitmask();
    if found == 0 {
        return BLOCK;
    }
    found.trailing_zeros() as usize
}

/// The index of the first of these bytes in a text, or the length of the text where there is none.
#[inline(never)]
fn index_in(text: &[u8], wanted: u8) -> usize
    ensures { result ≡ position_or_len (λ byte. byte == wanted) text.now }
{
    match memchr(wanted, text) {
        Some(index) => index,
        None => text.len(),
    }
}

/// Whether a word is this one.
#[inline(always)]
pub(crate) fn is_word(word: &[u8], wanted: &[u8]) -> bool
    ensures { result ≡ bytes_eq word.now wanted.now }
{
    word == wanted
}

/// Whether a word is spelled as this keyword.
#[inline(always)]
pub(crate) fn is_spelled(word: &[u8], keyword: &[u8]) -> bool
    requires { (4 ≤ length keyword.now) × (length keyword.now ≤ 8) }
    ensures { result ≡ bytes_eq word.now keyword.now }
{
    if word.len() != keyword.len() || four_bytes(word, 0) != four_bytes(keyword, 0) {
        return false;
    }
    // The first four bytes and the last four are all bytes.
    let last = keyword.len() - 4;
    four_bytes(word, last) == four_bytes(keyword, last)
}

// promise: as ScriptLine::of
/// Whether a line is one that is kept, by the numbers that their bytes are: eight at once, or four of a shorter line.
///
/// The length is compared first: the numbers alone would not tell where a line ends.
#[inline(always)]
pub fn is_kept_line(line: &[u8], kept: &[u8]) -> bool
    requires { (4 ≤ length kept.now) × (length kept.now ≤ 24) }
    ensures same { result ≡ true → line.now ≡ kept.now }
    ensures found { line.now ≡ kept.now → result ≡ true }
{
    let len = kept.len();
    if len < 8 {
        return is_spelled(line, kept);
    }
    if line.len() != len || eight_bytes(line, 0) != eight_bytes(kept, 0) {
        return false;
    }
    // The first eight bytes and the last eight are all bytes, or all but some in their middle.
    let last = len - 8;
    if eight_bytes(line, last) != eight_bytes(kept, last) {
        return false;
    }
    len <= 16 || eight_bytes(line, 8) == eight_bytes(kept, 8)
}

/// The eight bytes from an index on, as one number.
#[inline(always)]
fn eight_bytes(text: &[u8], index: usize) -> u64
    requires { index + 8 ≤ length text.now }
    ensures { result ≡ from_le_bytes w64 (take 8 (drop index text.now)) }
{
    u64::from_le_bytes(*text[index..].first_chunk::<8>().unwrap())
}

/// The four bytes from an index on, as one number.
#[inline(always)]
fn four_bytes(text: &[u8], index: usize) -> u32
    requires { index + 4 ≤ length text.now }
    ensures { result ≡ from_le_bytes w32 (take 4 (drop index text.now)) }
{
    u32::from_le_bytes(*text[index..].first_chunk::<4>().unwrap())
}
