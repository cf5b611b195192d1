//! Lists of tables of limits, one for each site.
ghost use Rattle.std.specs.Prelude.{◌≡◌, ◌↔◌, IfErr, IfOk, IsTrue, OnOk, []};
ghost use Rattle.ordup_primary.specs.Successors.{limits_from_start};

use ordup_limits::LimitTable;
use ordup_objects::{Refusal, or_give_up};
use std::alloc::Allocator;

/// Whether these are the same tables of limits, in the same order.
pub(crate) fn are_same_limits<A: Allocator + Copy>(
    these: &[LimitTable<A>],
    those: &[LimitTable<A>],
) -> bool
    ensures { IsTrue result ↔ (these.now ≡ those.now) }
{
    let count = these.len();
    if count != those.len() {
        return false;
    }
    for index in 0..count {
        if !these[index].is_same(&those[index]) {
            return false;
        }
    }
    true
}

/// A copy of these tables of limits.
pub(crate) fn copy_limits<A: Allocator + Copy>(
    alloc: A,
    tables: &[LimitTable<A>],
) -> Result<Vec<LimitTable<A>, A>, Refusal>
    ensures copied { IfOk result (λ limits. limits.items ≡ tables.now) }
    ensures refused { IfErr result (λ e. e ≡ Refusal.NoMemory) }
{
    let mut limits = Vec::new(alloc);
    or_give_up!(add_limits(alloc, tables, &mut limits), limits);
    Ok(limits)
}

/// Adds a copy of each of these tables of limits to a list without limits.
fn add_limits<A: Allocator + Copy>(
    alloc: A,
    tables: &[LimitTable<A>],
    limits: &mut Vec<LimitTable<A>, A>,
) -> Result<(), Refusal>
    requires { limits.old.items ≡ [] }
    ensures copied { OnOk result (limits.new.items ≡ tables.now) }
    ensures refused { IfErr result (λ e. e ≡ Refusal.NoMemory) }
{
    for table in tables {
        limits.push(table.copy(alloc)?)?;
    }
    Ok(())
}

/// The last limits of each of these tables, in force from the start.
pub(crate) fn copy_latest<A: Allocator + Copy>(
    alloc: A,
    tables: &[LimitTable<A>],
) -> Result<Vec<LimitTable<A>, A>, Refusal>
    ensures limits { IfOk result (λ limits. limits.items ≡ limits_from_start tables.now) }
    ensures refused { IfErr result (λ e. e ≡ Refusal.NoMemory) }
{
    let mut limits = Vec::new(alloc);
    or_give_up!(add_latest(alloc, tables, &mut limits), limits);
    Ok(limits)
}

/// Adds the last limits of each of these tables, in force from the start, to a list without limits.
fn add_latest<A: Allocator + Copy>(
    alloc: A,
    tables: &[LimitTable<A>],
    limits: &mut Vec<LimitTable<A>, A>,
) -> Result<(), Refusal>
    requires { limits.old.items ≡ [] }
    ensures limits { OnOk result (limits.new.items ≡ limits_from_start tables.now) }
    ensures refused { IfErr result (λ e. e ≡ Refusal.NoMemory) }
{
    for table in tables {
        limits.push(table.copy_latest(alloc)?)?;
    }
    Ok(())
}
