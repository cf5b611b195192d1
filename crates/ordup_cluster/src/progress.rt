use ordup_objects::SiteId;
use ordup_primary::Primary;

/// What of a book others wait for.
#[derive(Clone, Copy)]
pub(crate) struct Progress {
    /// How many updates are acknowledged.
    pub(crate) acked: u64,
    /// How many were sent, added up over the sites.
    pub(crate) sent: u64,
}

impl Progress {
    /// That of a primary.
    pub(crate) fn of(primary: &Primary) -> Progress {
        primary.keeps();
        let mut sent = 0u64;
        for index in 0..primary.setup().sites() {
            sent = sent.saturating_add(primary.sent(SiteId::new(index as u8)));
        }
        Progress {
            acked: primary.acked(),
            sent,
        }
    }
}
