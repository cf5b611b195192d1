//! What is wrong with a line that is no command.
use crate::texts::{is, push_about};
use ordup_grammar::sizes::MOST_LINE_BYTES;
use ordup_grammar::{ChangeWord, LinePart, Number, ScriptLine, Word, Words};
use ordup_text::TextBuffer;
use std::alloc::{AllocError, Allocator};

/// Adds what is wrong with a line that is no command.
pub(crate) fn push_syntax<A: Allocator + Copy>(
    out: &mut TextBuffer<A>,
    line: &[u8],
) -> Result<(), AllocError> {
    if line.len() > MOST_LINE_BYTES {
        return out.push(b"the line is too long: it has at most 4096 bytes");
    }
    if let [.., b'\r'] = line {
        return out.push(
            b"a carriage return ends the line: is it a file of Windows? tr -d '\\r' takes them away",
        );
    }
    if let [0xef, 0xbb, 0xbf, ..] = line {
        return out.push(b"a byte order mark begins the line: save the file without it");
    }
    for byte in line {
        if *byte == b'\t' {
            return out.push(b"there is a tab: put spaces in its place");
        }
        if *byte < b' ' || *byte > b'~' {
            out.push(b"the byte ")?;
            out.push_number(u64::from(*byte))?;
            return out.push(b" is not allowed: use letters, digits and signs of ASCII alone");
        }
    }
    let part = LinePart::new(line);
    match ScriptLine::of(&part) {
        ScriptLine::Words(first, rest) => push_words(out, first.as_bytes(), &rest),
        _ => out.push(b"the line is no command"),
    }
}

/// Adds what is wrong with the words of a line.
fn push_words<A: Allocator + Copy>(
    out: &mut TextBuffer<A>,
    first: &[u8],
    rest: &Words<'_>,
) -> Result<(), AllocError> {
    if let Some(word) = first_with(rest, Mistake::Comment) {
        return push_about(
            out,
            b"a comment stands on a line of its own, with # as its first byte: move ",
            word,
            b" there",
        );
    }
    if begins_with(first, b'#') {
        return out.push(
            b"a comment has # as the first byte of its line: take the spaces before it away",
        );
    }
    let Some(form) = form_of(first) else {
        if has_capital(first) {
            return push_about(
                out,
                b"there is no command ",
                first,
                b": commands have small letters",
            );
        }
        return push_about(
            out,
            b"there is no command ",
            first,
            b": `ordup run --help` shows them",
        );
    };
    if is(first, "propose") {
        if let Some(word) = first_with(rest, Mistake::Change) {
            if has(word, Mistake::Number) {
                return push_about(
                    out,
                    b"",
                    word,
                    b" has no number of the right form: it is digits, with - before them or not, without + and point",
                );
            }
            return push_about(
                out,
                b"",
                word,
                b" is no change: it is add:X:n, set:X:n, mul:X:n, max:X:n, min:X:n or take:X:Y",
            );
        }
    }
    if let Some(word) = first_with(rest, Mistake::Number) {
        return push_about(
            out,
            b"",
            word,
            b" is no number: it is digits, with - before them or not, without + and point",
        );
    }
    push_about(
        out,
        b"the words behind ",
        first,
        b" are too few, too many or wrong ones: it is ",
    )?;
    out.push(form)
}

/// What is looked for among words.
#[derive(Clone, Copy)]
enum Mistake {
    /// It begins with `#`.
    Comment,
    /// It is no change.
    Change,
    /// It, or what stands behind its last colon, begins as a number does, and is none.
    Number,
}

/// The first of these words with a mistake, if there is one.
fn first_with<'a>(words: &Words<'a>, mistake: Mistake) -> Option<&'a [u8]> {
    let mut rest = words.copy();
    for _ in 0..MOST_LINE_BYTES {
        let (word, more) = rest.split_first()?;
        if has(word.as_bytes(), mistake) {
            return Some(word.as_bytes());
        }
        rest = more;
    }
    None
}

/// Whether a word has a mistake.
fn has(word: &[u8], mistake: Mistake) -> bool {
    match mistake {
        Mistake::Comment => begins_with(word, b'#'),
        Mistake::Change => ChangeWord::parse(&Word::new(word)).is_none(),
        Mistake::Number => is_bad_number(behind_colons(word)),
    }
}

/// Whether a word begins with this byte.
fn begins_with(word: &[u8], byte: u8) -> bool {
    match word {
        [first, ..] => *first == byte,
        [] => false,
    }
}

/// What stands behind the last colon of a word.
fn behind_colons(word: &[u8]) -> &[u8] {
    let mut part = word;
    for at in 0..word.len() {
        if word[at] == b':' {
            part = &word[at + 1..];
        }
    }
    part
}

/// Whether a word begins as a number does, and is none.
fn is_bad_number(word: &[u8]) -> bool {
    let begins = match word {
        [b'+' | b'-' | b'.', ..] => true,
        [first, ..] => first.is_ascii_digit(),
        [] => false,
    };
    begins && Number::parse(word).is_none()
}

/// Whether a word has a capital.
fn has_capital(word: &[u8]) -> bool {
    for byte in word {
        if byte.is_ascii_uppercase() {
            return true;
        }
    }
    false
}

/// The form of a command of this first word, if there is one.
fn form_of(first: &[u8]) -> Option<&'static [u8]> {
    declaration_form(first).or(event_form(first))
}

/// The form of a declaration of this first word.
fn declaration_form(first: &[u8]) -> Option<&'static [u8]> {
    if is(first, "object") {
        Some(b"object N V")
    } else if is(first, "group") {
        Some(b"group G X..")
    } else if is(first, "site") {
        Some(b"site S CAP")
    } else if is(first, "limit") {
        Some(b"limit S object X N, or with `group G`, `all` or `count` in place of `object X`")
    } else if is(first, "start") {
        Some(b"start")
    } else {
        None
    }
}

/// The form of an event of this first word.
fn event_form(first: &[u8]) -> Option<&'static [u8]> {
    if is(first, "propose") {
        Some(b"propose C..")
    } else if is(first, "send") {
        Some(b"send S")
    } else if is(first, "apply") {
        Some(b"apply S")
    } else if is(first, "report") {
        Some(b"report S")
    } else if is(first, "settle") {
        Some(b"settle")
    } else if is(first, "begin") {
        Some(b"begin Q S LIMIT")
    } else if is(first, "read") {
        Some(b"read Q X")
    } else if is(first, "end") {
        Some(b"end Q")
    } else if is(first, "abandon") {
        Some(b"abandon Q")
    } else if is(first, "show") {
        Some(b"show S")
    } else if is(first, "certify") {
        Some(b"certify S")
    } else if is(first, "relimit") {
        Some(b"relimit S object X N, or with `group G`, `all` or `count` in place of `object X`")
    } else {
        None
    }
}
