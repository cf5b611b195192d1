ghost use Rattle.std.specs.Prelude.{◌≡◌, ◌≤◌, ◌<◌, ◌++◌, ◌∷◌, [], length};
ghost use Rattle.std.specs.List.{position, position_or_len};
ghost use Rattle.ordup_limits.specs.Entries.{put};
ghost use Rattle.ordup_limits.specs.Limits.{is_same_scope, are_on_one_scope};
ghost use Rattle.ordup_limits.specs.PassedLimits.{least_count, least_with};
ghost use Rattle.ordup_limits.specs.Sizes.{most_limits};

use crate::limit::Limit;
use crate::sizes::MOST_LIMITS;
use ordup_log::Scope;
use ordup_objects::sizes::MOST_UPDATES;
use std::marker::Model;

/// At most 64 limits, each on a scope of its own. It takes no memory.
#[derive(Drop)]
pub(crate) struct LimitList {
    limits: [Limit; MOST_LIMITS],
    count: usize,
}

impl Model for LimitList {
    ghost use Rattle.ordup_limits.specs.Limits.{Limits};
    ghost use Rattle.ordup_limits.specs.LimitListInside.{limits_of, HasFewLimits};

    ghost Value = { Limits };

    ghost view = { limits_of };

    ghost invariant = { HasFewLimits };
}

impl LimitList {
    /// No limits.
    pub(crate) fn new() -> Self
        ensures { result ≡ [] }
    {
        let limit = Limit {
            scope: Scope::Count,
            amount: 0,
        };
        LimitList {
            limits: [limit; MOST_LIMITS],
            count: 0,
        }
    }

    /// A copy of the list.
    pub(crate) fn copy(&self) -> Self
        ensures { result ≡ self.now }
    {
        let mut limits = LimitList::new();
        for limit in self.as_slice() {
            limits.push(limit);
        }
        limits
    }

    /// Puts a limit in the place of the one on its scope, or else as the last.
    pub(crate) fn put(&mut self, limit: &Limit)
        requires { length (put are_on_one_scope self.old limit.now) ≤ most_limits }
        ensures { self.new ≡ put are_on_one_scope self.old limit.now }
    {
        match self.index_of(&limit.scope) {
            Some(index) => self.limits[index] = *limit,
            None => self.push(limit),
        }
    }

    /// Adds a limit as the last.
    fn push(&mut self, limit: &Limit)
        requires { length self.old < most_limits }
        ensures { self.new ≡ self.old ++ limit.now ∷ [] }
    {
        self.limits[self.count] = *limit;
        self.count += 1;
    }

    /// The index of the limit on a scope, if there is one.
    pub(crate) fn index_of(&self, scope: &Scope) -> Option<usize>
        ensures { result ≡ position (λ l. is_same_scope l.scope scope.now) self.now }
    {
        self.as_slice()
            .iter()
            .position(|limit| limit.scope == *scope)
    }

    /// The index of the limit on a scope, or else the index after the last.
    pub(crate) fn index_for(&self, scope: &Scope) -> usize
        ensures { result ≡ position_or_len (λ l. is_same_scope l.scope scope.now) self.now }
    {
        match self.index_of(scope) {
            Some(index) => index,
            None => self.len(),
        }
    }

    /// The least amount of the limits on the count of updates. Without one it is the most updates of a log, which none passes.
    pub(crate) fn least_count(&self) -> u64
        ensures least { result ≡ least_count self.now }
        ensures few { length self.now ≤ most_limits }
    {
        let mut least = MOST_UPDATES as u64;
        for limit in self.as_slice() {
            least = least_with(least, limit);
        }
        least
    }

    /// How many limits there are.
    pub(crate) fn len(&self) -> usize
        ensures len { result ≡ length self.now }
        ensures few { length self.now ≤ most_limits }
    {
        self.count
    }

    /// The limits.
    pub(crate) fn as_slice(&self) -> &[Limit]
        ensures limits { result.now ≡ self.now }
        ensures few { length self.now ≤ most_limits }
    {
        &self.limits[..self.count]
    }
}

/// The lesser of a number and the limit's amount, where it is on the count of updates.
fn least_with(least: u64, limit: &Limit) -> u64
    ensures { result ≡ least_with least limit.now.scope limit.now.amount }
{
    match limit.scope {
        Scope::Count => least.min(limit.amount),
        Scope::Object(_) | Scope::Group(_) | Scope::All => least,
    }
}
