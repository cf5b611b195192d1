//! Tests by calls, of what no script says and no clause: of names, of lists of events and of worked rows (`events`); of records; of
//! streams that fail, of scripts and plans without memory (`scripts`); of writers with a buffer (`flushes`). `promises.rt` repeats
//! clauses of calls that no proof above cites.
#![tactic(auto)]

#[cfg(test)]
mod events;
#[cfg(test)]
mod expect;
#[cfg(test)]
mod flushes;
#[cfg(test)]
mod promises;
#[cfg(test)]
mod records;
#[cfg(test)]
mod scripts;
