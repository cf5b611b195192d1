use ordup_grammar::Word;

/// What was decided about a request, for good.
#[derive(Drop)]
pub enum Answer<'a> {
    /// `ok acked K epoch E`: its update is acknowledged, at the place K in the log of the epoch E.
    Acknowledged { place: u64, epoch: u64 },
    /// `refused N NAME`: the store refuses the update, by the number and the name of its refusal.
    Refused { number: u64, name: Word<'a> },
}

/// What was decided about a change of a limit.
#[derive(Drop)]
pub enum LimitAnswer<'a> {
    /// `ok K`: the limit is in force from the place K on.
    InForce { place: u64 },
    /// `refused N NAME`: the store refuses the change.
    Refused { number: u64, name: Word<'a> },
}
