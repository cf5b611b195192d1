//! Tests by calls, of feeds and of a cluster that threads share: appliers, callers and readers each have a thread of their own.
//! `promises.rt` repeats the clauses of a call that no proof above cites.
//!
//! Each wait is bounded, so a test that would hang fails.
#![tactic(auto)]

#[cfg(test)]
mod changing_limit;
#[cfg(test)]
mod expect;
#[cfg(test)]
mod feed;
#[cfg(test)]
mod fixtures;
#[cfg(test)]
mod held_site;
#[cfg(test)]
mod lagging_site;
#[cfg(test)]
mod last_update;
#[cfg(test)]
mod level_reads;
#[cfg(test)]
mod many_callers;
#[cfg(test)]
mod one_turn;
#[cfg(test)]
mod promises;
#[cfg(test)]
mod quiet_store;
#[cfg(test)]
mod stopped_store;
#[cfg(test)]
mod two_callers;
