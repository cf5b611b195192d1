//! Records of several sites of one store, and their audit. It says that the sites have the same updates, and that the rounds of each are
//! its fewest. The audit holds two records at a time: the one with the most updates so far, and the next.
//!
//! The one contract above this layer: records are answered the number of their rounds exactly where each is valid, and each two have the
//! same objects, groups and updates as far as both go; else the first reason against the first record that has one.
#![tactic(auto)]

mod audit;
mod difference;
mod laws;

pub use audit::SitesAudit;
pub use difference::first_difference;
pub use laws::same_records_have_the_same_values;
