use ordup_objects::SiteId;

/// The site that seldom reports where the load is `lagging`.
const LAGGING_SITE: usize = 3;

/// A kind of load.
#[derive(Clone, Copy, Debug, PartialEq, Eq)]
pub(crate) enum Kind {
    /// Every site reports soon, so settlements weigh short spans.
    Settled,
    /// One site seldom reports, and has limits that it never passes, so settlements weigh long spans of it.
    Lagging,
}

impl Kind {
    /// The kind that a word names.
    pub(crate) fn of(word: &str) -> Option<Self> {
        match word {
            "settled" => Some(Kind::Settled),
            "lagging" => Some(Kind::Lagging),
            _ => None,
        }
    }

    /// Whether a site reports so seldom that it lags far.
    pub(crate) fn lags(self, site: SiteId) -> bool {
        self == Kind::Lagging && site.index() == LAGGING_SITE
    }
}
