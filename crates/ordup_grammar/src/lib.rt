//! The grammar of scripts: lines, words, numbers, changes and commands. It says what the words of a line spell, and the command that they
//! ask for.
//!
//! What the layers above rely on: what a line asks for depends on its bytes alone, whether they come whole or in pieces.
//!
//! It knows no store: a name is a word, which may name nothing. Of the objects it has `NumberOp`, the kinds of changes by a number
//! alone. A `ScriptLine` is what a line is before its first word
//! is looked at: nothing, no command, or a first word and the rest. A `Keyword` is the first word of a command that is no
//! declaration. No code makes a command: `Request`, `Command` and `Action` are of the specification alone, and clauses say by them
//! what a line asks for. A `LineBuffer` holds what no piece of a script has ended yet. A `Prefix` is the first bytes of a text,
//! behind which more may stand. `bytes.rt` has what looks at several bytes of a line at once.
#![tactic(auto)]

mod bytes;
mod change_words;
mod declaration;
mod keyword;
mod line_buffer;
mod number;
mod prefix;
mod script_line;
pub mod sizes;
mod words;

pub use bytes::is_kept_line;
pub use change_words::{ChangeWord, Operation};
pub use declaration::{Declaration, ScopeWord};
pub use keyword::Keyword;
pub use line_buffer::{LineBuffer, LinePart, split_line};
pub use number::{Number, decimals_read_back, numbers_are_decimals};
pub use script_line::{ScriptLine, SiteAction};
pub use words::{Word, Words};
