ghost use Rattle.std.specs.Prelude.{◌≡◌};
ghost use Rattle.ordup_grammar.specs.Declarations.{declaration_of, limit_of, scope_and_amount};

use crate::bytes::is_word;
use crate::number::Number;
use crate::words::{Word, Words};

/// What is declared before the start.
#[derive(Drop)]
pub enum Declaration<'a> {
    /// `object N V`: an object of the name N, with the value V at the start.
    Object {
        name: Word<'a>,
        initial: Number,
    },
    /// `group G X..`: a group of the name G, whose members are the objects X.
    Group {
        name: Word<'a>,
        members: Words<'a>,
    },
    /// `site S CAP`: a site of the name S, with the capacity CAP.
    Site {
        name: Word<'a>,
        capacity: Number,
    },
    /// `limit S .. N`: the site S has a limit of N on what is named.
    Limit {
        site: Word<'a>,
        scope: ScopeWord<'a>,
        amount: Number,
    },
}

/// What a limit weighs.
#[derive(Drop)]
pub enum ScopeWord<'a> {
    /// `object X`: the object X.
    Object(Word<'a>),
    /// `group G`: the objects of the group G.
    Group(Word<'a>),
    /// `all`: all objects.
    All,
    /// `count`: the count of updates.
    Count,
}

impl<'a> Declaration<'a> {
    // promise: as Keyword::of
    /// The declaration that a first word and the words after it spell.
    pub fn parse(first: &Word<'_>, rest: &Words<'a>) -> Option<Declaration<'a>>
        ensures { result ≡ declaration_of first.now rest.now }
    {
        let first = first.as_bytes();
        if is_word(first, b"object") {
            let (name, initial) = rest.name_and_number()?;
            Some(Declaration::Object { name, initial })
        } else if is_word(first, b"group") {
            let (name, members) = rest.split_first()?;
            Some(Declaration::Group { name, members })
        } else if is_word(first, b"site") {
            let (name, capacity) = rest.name_and_number()?;
            Some(Declaration::Site { name, capacity })
        } else if is_word(first, b"limit") {
            let (site, scope, amount) = ScopeWord::parse_limit(rest)?;
            Some(Declaration::Limit {
                site,
                scope,
                amount,
            })
        } else {
            None
        }
    }
}

impl<'a> ScopeWord<'a> {
    // promise: as Keyword::of
    /// A site, what is weighed there and the amount: `S object X N`, `S group G N`, `S all N` or `S count N`.
    pub fn parse_limit(rest: &Words<'a>) -> Option<(Word<'a>, ScopeWord<'a>, Number)>
        ensures { result ≡ limit_of rest.now }
    {
        let (site, rest) = rest.split_first()?;
        let (kind, rest) = rest.split_first()?;
        let (scope, amount) = ScopeWord::parse(&kind, &rest)?;
        Some((site, scope, amount))
    }

    /// What is weighed, and the amount.
    fn parse(kind: &Word<'_>, rest: &Words<'a>) -> Option<(ScopeWord<'a>, Number)>
        ensures { result ≡ scope_and_amount kind.now rest.now }
    {
        let kind = kind.as_bytes();
        if is_word(kind, b"object") {
            let (object, amount) = rest.name_and_number()?;
            Some((ScopeWord::Object(object), amount))
        } else if is_word(kind, b"group") {
            let (group, amount) = rest.name_and_number()?;
            Some((ScopeWord::Group(group), amount))
        } else if is_word(kind, b"all") {
            Some((ScopeWord::All, rest.only_number()?))
        } else if is_word(kind, b"count") {
            Some((ScopeWord::Count, rest.only_number()?))
        } else {
            None
        }
    }
}
