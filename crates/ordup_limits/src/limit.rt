use crate::sizes::GREATEST_AMOUNT;
use ordup_log::Scope;

/// The most that a span on a scope may weigh: in the unit of the values, or in updates where the scope is `Count`.
#[derive(Clone, Copy, Debug, PartialEq, Eq)]
pub struct Limit {
    /// What the weight is taken on.
    pub scope: Scope,
    /// The greatest weight that keeps the limit, 0 to 10^18.
    pub amount: u64,
}

impl Limit {
    ghost use Rattle.std.specs.Prelude.{◌≡◌};
    ghost use Rattle.ordup_limits.specs.Totals.{kept_amount};

    /// The amount, and no more than the greatest one: no log weighs more, and no sum of it and a weight is too large.
    pub(crate) fn kept_amount(&self) -> u64
        ensures { result ≡ kept_amount self.now }
    {
        self.amount.min(GREATEST_AMOUNT)
    }
}
