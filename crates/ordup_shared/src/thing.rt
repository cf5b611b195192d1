//! What a handle is of.
use crate::open_book::OpenBook;
use crate::open_query::OpenQuery;
use crate::open_site::OpenSite;
use ordup_primary::Setup;

/// What a handle is of.
#[derive(Drop)]
pub struct Thing {
    pub(crate) kind: Kind,
}

/// The kinds of it.
#[derive(Drop)]
pub enum Kind {
    /// Declarations.
    OfSetup(Setup),
    /// The book of a cluster.
    OfBook(OpenBook),
    /// A site.
    OfSite(OpenSite),
    /// A query.
    OfQuery(OpenQuery),
}
