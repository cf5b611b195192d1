/// A kind of load.
#[derive(Clone, Copy, Debug, PartialEq, Eq)]
pub(crate) enum Kind {
    /// Each thread reads at a site of its own.
    ReadsOwn,
    /// All threads read at one site.
    ReadsOne,
    /// Threads read while another one proposes an update now and then.
    ReadsBeside,
    /// Queries of 100 reads.
    Queries,
    /// From a proposal until each of the sleeping sites has it.
    Wake,
    /// Callers that wait until their updates are acknowledged.
    Rounds,
    /// Nobody calls.
    Idle,
    /// How long a caller stands still while a successor is started.
    Successor,
    /// Callers over many epochs.
    Epochs,
}

impl Kind {
    /// The kind that a word names.
    pub(crate) fn of(word: &str) -> Option<Self> {
        match word {
            "reads-own" => Some(Kind::ReadsOwn),
            "reads-one" => Some(Kind::ReadsOne),
            "reads-beside" => Some(Kind::ReadsBeside),
            "queries" => Some(Kind::Queries),
            "wake" => Some(Kind::Wake),
            "rounds" => Some(Kind::Rounds),
            "idle" => Some(Kind::Idle),
            "successor" => Some(Kind::Successor),
            "epochs" => Some(Kind::Epochs),
            _ => None,
        }
    }
}

/// What is to be done.
#[derive(Clone, Copy, Debug)]
pub(crate) struct Job {
    pub(crate) kind: Kind,
    pub(crate) sites: u64,
    /// How many readers or callers there are.
    pub(crate) threads: u64,
    /// How many reads each reader makes, how many updates each caller proposes, or for how many milliseconds nobody calls.
    pub(crate) count: u64,
    /// 0 where no site has a limit, and else one more than the limit of each site on all objects.
    pub(crate) limit: u64,
}

/// What was done.
#[derive(Clone, Copy, Debug)]
pub(crate) struct Done {
    pub(crate) nanos: u64,
    pub(crate) count: u64,
}
