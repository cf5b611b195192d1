//! The jobs `run` and `record`, of a script. `run` prints its answers, and may note why lines were refused;
//! `record` prints the record of a site in their place.
//!
//! The one contract above this layer: a script was run over the streams of the job, and the job ended as the run did, or as printing
//! the record did.
#![tactic(auto)]

mod answers;
mod explained;
mod faults;
mod record;

pub use answers::print_answers;
pub use explained::{print_answers_explained, print_answers_strictly};
pub use faults::fault_of_script;
pub use record::print_record;
