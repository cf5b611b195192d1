ghost use Rattle.std.specs.Prelude.{◌≡◌};
ghost use Rattle.ordup_grammar.specs.Keywords.{keyword_of};

use crate::bytes::{is_spelled, is_word};
use crate::words::Word;

/// The first word of a command that is no declaration.
#[derive(Clone, Copy)]
pub enum Keyword {
    /// `start`: the declarations are complete.
    Start,
    /// `certify S`: the rounds of the site S are shown to be the fewest.
    Certify,
    /// `propose C..`: an update that makes the changes C.
    Propose,
    /// `send S`: the next update for the site S is sent.
    Send,
    /// `apply S`: the site S applies the next update that was sent to it.
    Apply,
    /// `report S`: the site S reports how many updates it applied.
    Report,
    /// `settle`: the head is settled.
    Settle,
    /// `begin Q S LIMIT`: a query of the name Q begins at the site S, with this import limit.
    Begin,
    /// `read Q X`: the query Q reads the object X.
    Read,
    /// `end Q`: the query Q ends.
    End,
    /// `abandon Q`: the query Q is given up.
    Abandon,
    /// `show S`: the values at the site S.
    Show,
    /// `relimit S .. N`: the site S has a limit of N on what is named, from the place after the last acknowledged one on.
    Relimit,
}

impl Keyword {
    // promise: words spell commands and changes exactly as the grammar says
    /// The keyword that a word spells, if it spells one.
    #[tactic(auto, unfolding(crate::specs::Keywords::keyword_of))]
    #[inline(always)]
    pub fn of(word: &Word<'_>) -> Option<Keyword>
        ensures { result ≡ keyword_of word.now }
    {
        let word = word.as_bytes();
        if is_spelled(word, b"start") {
            Some(Keyword::Start)
        } else if is_spelled(word, b"certify") {
            Some(Keyword::Certify)
        } else if is_spelled(word, b"propose") {
            Some(Keyword::Propose)
        } else if is_spelled(word, b"send") {
            Some(Keyword::Send)
        } else if is_spelled(word, b"apply") {
            Some(Keyword::Apply)
        } else if is_spelled(word, b"report") {
            Some(Keyword::Report)
        } else if is_spelled(word, b"settle") {
            Some(Keyword::Settle)
        } else if is_spelled(word, b"begin") {
            Some(Keyword::Begin)
        } else if is_spelled(word, b"read") {
            Some(Keyword::Read)
        } else if is_word(word, b"end") {
            Some(Keyword::End)
        } else if is_spelled(word, b"abandon") {
            Some(Keyword::Abandon)
        } else if is_spelled(word, b"show") {
            Some(Keyword::Show)
        } else if is_spelled(word, b"relimit") {
            Some(Keyword::Relimit)
        } else {
            None
        }
    }
}
