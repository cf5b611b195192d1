/// What callers found.
#[derive(Clone, Copy, Drop)]
pub(crate) struct Tally {
    /// How many waits ended too late.
    pub(crate) late: u64,
}

impl Tally {
    /// Both together.
    pub(crate) fn with(self, other: Tally) -> Tally {
        Tally {
            late: self.late.saturating_add(other.late),
        }
    }
}
