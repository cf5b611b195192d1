//! The jobs `next` and `next --record`. They print the declarations of a successor, from a script and from a record.
//!
//! The one contract above this layer: the lines of the successor were printed, or those of the objects and groups that a valid
//! record ends with; else nothing was written, or the verdict on the record was.
#![tactic(auto)]

mod end;
mod next;

pub use end::print_next_of_record;
pub use next::print_next;
