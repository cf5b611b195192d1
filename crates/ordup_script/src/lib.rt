//! Scripts and plans, from bytes to bytes. A script is lines of commands that a reader gives, and their answers go to a writer. A
//! plan is a script of declarations, `start` and then proposals alone; it is read, and answers nothing.
//!
//! The one contract above this layer: what is written is a function of what is read, by lines.
//!
//! One reader of lines serves all (`line_reader.rt`). It gives each line to a `LineTaker`: `Answerer` (`stream.rt`) answers it, and
//! hands the answers out as soon as they have as many bytes as a piece; `Follower` (`following.rt`) answers it to nobody, for what
//! the script leaves; `Planning` (`plan.rt`) adds it to a plan.
#![tactic(auto)]

mod explaining;
mod following;
mod line_reader;
mod plan;
mod plan_reader;
pub mod sizes;
mod stream;

pub use explaining::run_script_explained;
pub use following::follow_script;
pub use ordup_answers::ScriptEnd;
pub use plan::{Plan, PlanFault};
pub use plan_reader::{read_plan, read_plan_within};
pub use stream::{ScriptFault, run_script, run_script_within};
