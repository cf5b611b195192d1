//! A query behind a handle.
use ordup_query::Query;

/// A query of a cluster.
#[derive(Drop)]
pub struct OpenQuery {
    pub(crate) query: Query,
    /// The number by which the host tells its clusters apart.
    pub(crate) cluster: u64,
}
