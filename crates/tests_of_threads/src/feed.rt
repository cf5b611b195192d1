//! The feed, on one thread and on two.
mod fixtures;
mod one_thread;
mod ring;
mod through_a_primary;
mod two_threads;
