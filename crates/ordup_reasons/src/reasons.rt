//! A sentence for each refusal.
use crate::syntax::push_syntax;
use crate::texts::{is, push_about};
use ordup_grammar::{LinePart, ScriptLine, Words};
use ordup_text::TextBuffer;
use std::alloc::{AllocError, Allocator};

/// Adds why a line was answered so: in one line, without a line feed.
pub fn push_reason<A: Allocator + Copy>(
    out: &mut TextBuffer<A>,
    answer: &[u8],
    line: &[u8],
) -> Result<(), AllocError> {
    let number = number_in(answer);
    if number == 1 {
        return push_syntax(out, line);
    }
    let part = LinePart::new(line);
    let ScriptLine::Words(first, rest) = ScriptLine::of(&part) else {
        return out.push(b"the line is no command");
    };
    let first = first.as_bytes();
    match number {
        4 => push_about(
            out,
            b"",
            word_at(&rest, 0),
            b" is no name: a name is 1 to 16 bytes of a-z, 0-9 and _, the first of them a letter",
        ),
        5 => push_about(
            out,
            b"the name ",
            word_at(&rest, 0),
            b" is declared before: choose another",
        ),
        6 => push_unknown_object(out, first, &rest),
        7 => push_about(
            out,
            b"there is no group ",
            word_at(&rest, 2),
            b": declare it before `start`, and before its limit",
        ),
        8 => push_about(
            out,
            b"there is no site ",
            word_at(&rest, usize::from(is(first, "begin"))),
            b": declare it before `start`, and before its limits",
        ),
        9 => out.push(range_of(first)),
        10 => out.push(size_of(first)),
        11 => out.push(emptiness_of(first)),
        12 => out.push(repetition_of(first)),
        13..=19 => push_nothing_to_do(out, number, word_at(&rest, 0)),
        20 => push_about(
            out,
            b"the imports of ",
            word_at(&rest, 0),
            b" would pass its limit: let the site apply, read another object, or begin a query with a greater limit",
        ),
        25 => push_about(
            out,
            b"what ",
            word_at(&rest, 0),
            b" has not reported weighs more than the new limit: let it report first, or choose a greater amount",
        ),
        2 => push_about(
            out,
            b"",
            first,
            b" comes after `start`, and no `start` was accepted: see what it was answered",
        ),
        3 if is(first, "start") => out.push(b"the store is started: `start` comes once"),
        3 => push_about(
            out,
            b"",
            first,
            b" comes before `start`, and the store is started: move the line up",
        ),
        _ => out.push(of_calls(number)),
    }
}

/// The number in an answer. The names of refusals have none.
fn number_in(answer: &[u8]) -> u8 {
    let mut number = 0u8;
    for byte in answer {
        if byte.is_ascii_digit() {
            number = number.wrapping_mul(10).wrapping_add(*byte - b'0');
        }
    }
    number
}

/// The word after as many others, or no byte where there are fewer.
pub(crate) fn word_at<'a>(words: &Words<'a>, skipped: usize) -> &'a [u8] {
    let mut rest = words.copy();
    for _ in 0..skipped {
        match rest.split_first() {
            Some((_, more)) => rest = more,
            None => return b"",
        }
    }
    match rest.split_first() {
        Some((word, _)) => word.as_bytes(),
        None => b"",
    }
}

/// Which object is unknown, where the line has one alone.
fn push_unknown_object<A: Allocator + Copy>(
    out: &mut TextBuffer<A>,
    first: &[u8],
    rest: &Words<'_>,
) -> Result<(), AllocError> {
    if is(first, "propose") {
        return out.push(
            b"a change names an object that is not declared: `object N V` declares it before `start`",
        );
    }
    if is(first, "group") {
        return out.push(
            b"a member of the group is no object: `object N V` declares it before the group",
        );
    }
    push_about(
        out,
        b"there is no object ",
        word_at(rest, if is(first, "read") { 1 } else { 2 }),
        b": `object N V` declares it before `start`",
    )
}

/// The range that a command passes.
fn range_of(first: &[u8]) -> &'static [u8] {
    if is(first, "object") {
        b"the value is out of range: it is -1000000000 to 1000000000"
    } else if is(first, "site") {
        b"the capacity is out of range: it is 1 to 1024"
    } else if is(first, "begin") {
        b"the import limit is out of range: it is 0 to 1000000000000000000"
    } else if is(first, "propose") {
        b"a number of a change, or a value after it, is out of range: both are -1000000000 to 1000000000"
    } else {
        b"the amount is out of range: it is 0 to 1000000000000000000"
    }
}

/// The size that a command passes.
fn size_of(first: &[u8]) -> &'static [u8] {
    if is(first, "object") {
        b"a store has at most 256 objects: use a second store"
    } else if is(first, "group") {
        b"a group has at most 64 members, and a store at most 32 groups: use fewer"
    } else if is(first, "site") {
        b"a store has at most 16 sites: use a second store"
    } else if is(first, "propose") {
        b"an update has at most 64 changes: make two of it"
    } else if is(first, "begin") {
        b"at most 64 queries are open: `end` or `abandon` one first"
    } else if is(first, "read") {
        b"a query makes at most 256 reads: `end` it, and begin another"
    } else {
        b"a site has limits on at most 64 scopes, and at most 1088 with their changes: use fewer"
    }
}

/// What a command lacks.
fn emptiness_of(first: &[u8]) -> &'static [u8] {
    if is(first, "group") {
        b"the group has no member: name its objects behind it"
    } else if is(first, "propose") {
        b"there is no change: write one behind `propose`, as add:x:5"
    } else {
        b"there is no object or no site: declare one of each before `start`"
    }
}

/// What comes twice.
fn repetition_of(first: &[u8]) -> &'static [u8] {
    if is(first, "group") {
        b"an object is in the group twice: name it once"
    } else if is(first, "propose") {
        b"two changes are of one object: propose them one after the other"
    } else {
        b"the site has a limit on this scope: leave one out, or change it by `relimit` after `start`"
    }
}

/// Refusals of events that come again and again.
fn push_nothing_to_do<A: Allocator + Copy>(
    out: &mut TextBuffer<A>,
    number: u8,
    name: &[u8],
) -> Result<(), AllocError> {
    match number {
        13 => out.push(
            b"the log has its 1000000 updates: `ordup next` makes the declarations of a successor",
        ),
        14 => push_about(
            out,
            b"all updates were sent to ",
            name,
            b": nothing is to be done",
        ),
        15 => push_about(
            out,
            b"the feed of ",
            name,
            b" is full: let it `apply`, or declare a greater capacity",
        ),
        16 => push_about(
            out,
            b"the site ",
            name,
            b" has applied all that was sent to it: `send` comes first",
        ),
        17 => out.push(b"all updates are acknowledged: nothing is to be done"),
        18 => push_about(out, b"no query ", name, b" is open: `begin` opens it"),
        _ => push_about(
            out,
            b"the query ",
            name,
            b" is open: `end` it first, or choose another name",
        ),
    }
}

/// Refusals that come to no line, but to calls of the library, and of a head that is pending.
fn of_calls(number: u8) -> &'static [u8] {
    match number {
        21 => b"the site has applied fewer updates than were seen: read at another site, or wait",
        22 => b"an update is numbered and not acknowledged yet: settle it",
        23 => b"the service is closing: nothing was numbered",
        24 =>
            b"the head waits for its round: let the sites of the round report it, and `settle`, first",
        26 => b"memory was refused: free some, and try again",
        _ => b"the store is gone, since a site does not agree with the log: tell the maintainers",
    }
}
