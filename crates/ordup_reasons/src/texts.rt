//! Sentences with a word of the line in them.
use ordup_text::TextBuffer;
use std::alloc::{AllocError, Allocator};

/// The most bytes of a word that are shown.
const MOST_SHOWN: usize = 40;

/// Adds a sentence with a word in it, between quotes. Of a long word the first bytes are shown.
pub(crate) fn push_about<A: Allocator + Copy>(
    out: &mut TextBuffer<A>,
    before: &[u8],
    word: &[u8],
    after: &[u8],
) -> Result<(), AllocError> {
    out.push(before)?;
    out.push(b"`")?;
    let shown = word.len().min(MOST_SHOWN);
    out.push(&word[..shown])?;
    if shown < word.len() {
        out.push(b"..")?;
    }
    out.push(b"`")?;
    out.push(after)
}

/// Whether a word is this text.
pub(crate) fn is(word: &[u8], text: &str) -> bool {
    word == text.as_bytes()
}
