//! Tests by calls, of calls that take no memory: with every growth refused they are answered as ever.
#![tactic(auto)]

#[cfg(test)]
mod expect;
#[cfg(test)]
mod ledgers;
#[cfg(test)]
mod readers;
#[cfg(test)]
mod steps;
#[cfg(test)]
mod values;
