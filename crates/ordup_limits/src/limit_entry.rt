use crate::limit::Limit;

/// A limit, and the first place of the log for which it holds.
#[derive(Clone, Copy, Debug, PartialEq, Eq)]
pub struct LimitEntry {
    /// The limit.
    pub limit: Limit,
    /// The first place for which it holds, 1 where it holds from the start.
    pub place: u64,
}
