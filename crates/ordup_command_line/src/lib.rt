//! The command line: jobs, help and version. `job_of` says which job the words ask for.
//!
//! It stands on the library clap and on no crate of ordup. The check of what clap asks for is long, and so it is made once and not
//! again with each change of the program. No contract says which job the words ask for: `checks/outside` tries that.
#![tactic(auto)]

mod command_line;

pub use command_line::{FILE_TIP, Job, job_of};
