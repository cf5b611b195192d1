use crate::answer::{Answer, LimitAnswer};
use crate::settings::Settings;
use crate::text::Text;
use ordup_grammar::{ScopeWord, Word};

/// One line of an entry behind its first.
#[derive(Drop)]
pub enum Step<'a> {
    /// `begin ..`: the entry begins its epoch, with these settings.
    Begin(Settings<'a>),
    /// `declare ..`: a line of the declarations of the epoch.
    Declare(Text<'a>),
    /// `known C N D E [AGE] ..`: the last answer to a client of the epochs before. The request is `age` seconds older than what
    /// carries it over.
    Known {
        client: Word<'a>,
        number: u64,
        digest: Word<'a>,
        epoch: u64,
        age: u64,
        answer: Answer<'a>,
    },
    /// `tell S N`: the site has applied N updates more than it had told.
    Tell {
        site: Word<'a>,
        count: u64,
    },
    /// `ask C N ..`: the request N of a client, by its changes.
    Ask {
        client: Word<'a>,
        number: u64,
        changes: Text<'a>,
    },
    /// `settle N`: N settlements are asked for.
    Settle {
        count: u64,
    },
    /// `wish ..`: what an operator wants of the next epoch.
    Wish(Settings<'a>),
    /// `want ..`: a line of the declarations that are wanted.
    Want(Text<'a>),
    /// `leave S`: the site is taken out, and serves no reader from here on.
    Leave {
        site: Word<'a>,
    },
    /// `gone S N`: no process has a lease of the site that is taken out, and it counts as at the end.
    Gone {
        site: Word<'a>,
        count: u64,
    },
    /// `relimit S .. N ..`: a limit of the site is changed, or given to it, if the store takes that.
    Relimit {
        site: Word<'a>,
        scope: ScopeWord<'a>,
        amount: u64,
        answer: LimitAnswer<'a>,
    },
    /// `elapsed N`: N more seconds have passed, by the clock of the writer.
    Elapsed {
        seconds: u64,
    },
    /// `answer C N D ..`: what was decided for a client in the entry.
    Answered {
        client: Word<'a>,
        number: u64,
        digest: Word<'a>,
        answer: Answer<'a>,
    },
}
