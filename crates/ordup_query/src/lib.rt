//! Queries: reads at a site, and what they import. The site may lag or lead.
//!
//! What the layers above rely on: a query's total is within its limit, and each read is charged the weight between the site's place
//! and the query's reference, where its marks are those of the reference on the site's log. A query stands on no log.
#![tactic(auto)]

mod answer;
mod laws;
mod query;
pub mod sizes;

pub use answer::{QueryAnswer, ReadAnswer};
pub use laws::charges_are_imports;
pub use ordup_objects::longer_histories_keep_marks;
pub use query::Query;
