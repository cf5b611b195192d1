//! The objects of the store: names, values, and the message sets that change them. Sites are named here too, since a refusal names one.
//!
//! What the layers above rely on: a message set applies as its definition says, as a whole or not at all.
//!
//! Operations and changes stand in `change.rt`, tables of names in `name_table.rt`, and what a set makes of the values in
//! `results.rt` and `moved.rt`. `bytes.rt` has what makes it cheap to find a name.
#![tactic(auto)]

mod bytes;
mod change;
mod ids;
mod laws;
mod message_set;
mod moved;
mod name;
mod name_table;
mod object_table;
mod or_give_up;
mod refusal;
mod results;
pub mod sizes;
mod values;

pub use bytes::{Hints, copy_short, slot_of};
pub use change::{Change, NumberOp, Op};
pub use ids::{ObjectId, SiteId};
pub use laws::{
    legal_histories_join, longer_histories_keep_marks, longer_histories_keep_object_spans,
    longer_histories_keep_serial_results, object_spans_join, prefixes_of_legal_histories_are_legal,
    serial_results_join, values_move_by_their_weights,
};
pub use message_set::MessageSet;
pub use moved::Moved;
pub use name::{Name, NameBytes};
pub use name_table::NameTable;
pub use object_table::ObjectTable;
pub use refusal::Refusal;
pub use results::Results;
pub use values::Values;
