use ordup_grammar::Word;

/// What all primaries of an epoch agree on.
#[derive(Drop)]
pub struct Settings<'a> {
    /// How many requests the epoch takes.
    pub every: u64,
    /// For how many whole epochs a client is remembered after its last request.
    pub remembers: u64,
    /// The digest of the declarations that an operator gave last.
    pub origin: Word<'a>,
    /// The version of ordup that runs the epoch.
    pub version: Word<'a>,
    /// What stays the same in all epochs.
    pub began: Began<'a>,
    /// For how many seconds a client is remembered at least.
    pub seconds: u64,
}

/// The settings of the primary that began the script.
#[derive(Drop)]
pub struct Began<'a> {
    /// How many requests an epoch took.
    pub every: u64,
    /// For how many whole epochs a client was remembered.
    pub remembers: u64,
    /// The digest of its declarations.
    pub origin: Word<'a>,
    /// For how many seconds a client was remembered at least.
    pub seconds: u64,
}
