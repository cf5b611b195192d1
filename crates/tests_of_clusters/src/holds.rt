//! The work of one hold of a lock, on one thread.
mod agreement;
mod fixtures;
mod full_feed;
mod one_update;
mod ring;
mod waiting;
