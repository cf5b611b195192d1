//! The calls of a cluster, on one thread.
mod changed_limits;
mod conditions;
mod fixtures;
mod gates;
mod level_reads;
mod one_site;
mod open_rounds;
mod refusals;
mod two_sites;
mod unlike_sites;
