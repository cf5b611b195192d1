//! A replica site: its values after its updates, and how far each travelled.
//!
//! What the layers above rely on: a site holds the serial result of the updates that it applied, and their weights.
//!
//! A site stands on no log. It keeps the weight that each value travelled as a running sum. `Primary::marks` gives the same sums
//! for what is acknowledged, and a read takes the distance of the two. So a read costs the same however far the site lags.
#![tactic(auto)]

mod laws;
mod site;

pub use laws::longer_histories_keep_what_was_applied;
pub use site::Site;
