//! Answers to commands of a script. They say what a command does to the setup or to the world, and the text of its answer.
//!
//! The one contract above this layer: for every state of a script, a line is answered as the reply to it says, and leaves the state
//! that the reply leaves; the text of the reply is taken.
//!
//! `answering.rt` is the one door for a line. `names.rt` and `changes.rt` look up what its words name, `declaring.rt` and
//! `events.rt` make declarations and events of them, and `answers.rt` lets the setup or the world answer. `known_lines.rt` keeps
//! lines of a site that came before, so that they are found by their bytes. `taker.rt` says what takes the answers, and `text.rt`
//! is their text. `NearestNumbers.antt` says what stands in for a number of more than 63 bits.
#![tactic(auto)]

mod answering;
mod answers;
mod changes;
mod declaring;
mod events;
mod known_answers;
mod known_line;
mod known_lines;
mod names;
mod script_end;
mod taker;
mod text;

pub use answering::Answering;
pub use changes::set_in;
pub use declaring::declare;
pub use script_end::ScriptEnd;
pub use taker::{AnswerTaker, Unanswered};
pub use text::push_answer;
