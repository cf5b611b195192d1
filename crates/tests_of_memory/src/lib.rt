//! Tests by calls, of want of memory: each growth of each call of a store on one thread is refused. `promises.rt` repeats clauses of a
//! call that no proof above cites.
#![tactic(auto)]

#[cfg(test)]
mod additions;
#[cfg(test)]
mod changed_limits;
#[cfg(test)]
mod copies;
#[cfg(test)]
mod digests;
#[cfg(test)]
mod expect;
#[cfg(test)]
mod growths;
#[cfg(test)]
mod lines;
#[cfg(test)]
mod promises;
#[cfg(test)]
mod starts;
#[cfg(test)]
mod successors;
