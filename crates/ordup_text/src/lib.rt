//! Text in memory, and the one loop that writes it.
//!
//! The one contract above this layer: a call that succeeds has added its text at the end of the buffer. `send` writes all of its
//! bytes, or a prefix of them before the writer fails.
//!
//! `lines.rt` adds what several answers have. The count of a number's digits is known first, so they are written where they stay.
#![tactic(auto)]

mod lines;
mod output;
mod text_buffer;

pub use lines::{
    MOST_VALUE_BYTES, push_done, push_numbered, push_values, push_with_number, put_done, put_named,
    put_numbered, put_values, put_with_number, put_with_value,
};
pub use output::{WriteFault, send};
pub use text_buffer::{MOST_DIGITS, TextBuffer};
