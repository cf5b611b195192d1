//! Tests by calls, of holds and of clusters, on one thread. `promises.rt` repeats clauses of calls that no proof above cites.
#![tactic(auto)]

#[cfg(test)]
mod cluster;
#[cfg(test)]
mod expect;
#[cfg(test)]
mod holds;
#[cfg(test)]
mod promises;
