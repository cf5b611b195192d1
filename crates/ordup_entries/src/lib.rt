//! The entries of a script that several machines share: what they are, how they are written, and how they are read.
//!
//! The one contract above this layer: a text is read as an entry where it is the text of one of the form, as that entry, and else the
//! number of the first line that may not stand there is told. So what was written is read as it was.
//!
//! It knows no store. A `Step` is one line of an entry behind its first, and its texts lie in the text that was read. A `Text` is
//! what is still to be read.
#![tactic(auto)]

mod answer;
mod entry;
mod error;
mod fields;
mod laws;
mod line;
mod order;
mod reading;
mod settings;
pub mod sizes;
mod step;
mod text;
mod writing;

pub use answer::{Answer, LimitAnswer};
pub use entry::{Entry, Header};
pub use error::ReadError;
pub use laws::{
    no_two_entries_have_one_text, reading_gives_back_what_was_written, what_is_read_was_written,
};
pub use reading::read_entry;
pub use settings::{Began, Settings};
pub use step::Step;
pub use text::Text;
pub use writing::write_entry;
