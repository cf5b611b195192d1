ghost use Rattle.std.specs.Prelude.{◌≡◌, ◌==◌, ◌∷◌, []};
ghost use Rattle.std.specs.List.{list_all};
ghost use Rattle.ordup_grammar.specs.Lines.{cut};
ghost use Rattle.ordup_grammar.specs.Requests.{asked, is_comment, is_printed, request_of};

use crate::line_buffer::LinePart;
use crate::sizes::MOST_LINE_BYTES;
use crate::words::{Word, Words};

/// What a line of a script is, before its first word is looked at.
#[derive(Drop)]
pub enum ScriptLine<'a> {
    /// It asks for nothing: it is a comment, or has no word.
    Nothing,
    /// It is no command: it is too long, or has a byte that is not printed.
    NoCommand,
    /// It has a first word and the words after it, which may spell a command.
    Words(Word<'a>, Words<'a>),
}

impl<'a> ScriptLine<'a> {
    // promise: the line rules, in order, decide what a line asks for, whole or in pieces
    /// What the line with these bytes is. What it asks for is what the line asks for.
    #[tactic(auto, unfolding(crate::specs::Requests::request_of))]
    #[inline(always)]
    pub fn of(part: &LinePart<'a>) -> ScriptLine<'a>
        ensures { request_of (cut part.now) ≡ asked result }
    {
        let line = part.as_bytes();
        if line.len() > MOST_LINE_BYTES {
            return ScriptLine::NoCommand;
        }
        if is_comment(line) {
            return ScriptLine::Nothing;
        }
        if !part.is_printed() {
            return ScriptLine::NoCommand;
        }
        match part.words().split_first() {
            Some((first, rest)) => ScriptLine::Words(first, rest),
            None => ScriptLine::Nothing,
        }
    }
}

/// Whether a line is a comment.
fn is_comment(line: &[u8]) -> bool
    ensures { result ≡ is_comment line.now }
{
    match line {
        [] => false,
        [first, ..] => *first == b'#',
    }
}

/// An action at a site, which a keyword and the site ask for.
#[derive(Clone, Copy)]
pub enum SiteAction {
    /// `send S`
    Send,
    /// `apply S`
    Apply,
    /// `report S`
    Report,
}
