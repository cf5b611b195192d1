//! What a read answers.
use ordup_cluster::SeenValue;

/// The value of an object at a site that has applied this count of updates.
pub fn seen(value: i64, applied: u64) -> SeenValue {
    SeenValue { value, applied }
}
