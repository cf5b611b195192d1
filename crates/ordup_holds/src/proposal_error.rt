use ordup_objects::Refusal;

/// Why a message set with conditions was not numbered.
#[derive(Clone, Copy, Debug, PartialEq, Eq)]
pub enum ProposalError {
    /// The set is refused.
    Refused(Refusal),
    /// The condition at this index, the first such one, would not be met after the set.
    Unmet(usize),
}
