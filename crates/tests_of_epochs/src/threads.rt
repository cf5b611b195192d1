//! A service that threads share: appliers, callers and readers each have a thread of their own.
//!
//! Each wait is bounded, so a test that would hang fails.
mod across_epochs;
mod archives;
mod first_most;
mod keeping;
mod refused_successor;
mod sent_before_a_successor;
mod slow_archive;
mod stopped_service;
mod successor_by_hand;
mod two_starts;
mod visits;
mod while_a_successor_starts;
