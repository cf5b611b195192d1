//! Tests by calls, of a service in which each store has a successor: on one thread, and shared by several (`threads`).
//! `promises.rt` repeats clauses of calls that no proof above cites.
#![tactic(auto)]

#[cfg(test)]
mod by_hand;
#[cfg(test)]
mod counting;
#[cfg(test)]
mod expect;
#[cfg(test)]
mod fixtures;
#[cfg(test)]
mod later_epochs;
#[cfg(test)]
mod one_thread;
#[cfg(test)]
mod promises;
#[cfg(test)]
mod threads;
#[cfg(test)]
mod two_sites;
