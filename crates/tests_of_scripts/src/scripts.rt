//! Scripts and plans over streams that fail, with memory that is refused, and limits of bytes.
mod memory;
mod plans;
mod script;
