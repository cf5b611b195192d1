//! Why a line of a script was refused, in words: what is wrong, and what to do. Nothing rests on these texts: they are for people.
//!
//! `reasons.rt` has a sentence for each refusal, and `syntax.rt` those for lines that are no command.
#![tactic(auto)]

mod reasons;
mod syntax;
mod texts;

pub use reasons::push_reason;
