//! Entries in the order of their places.

ghost use Rattle.std.specs.Prelude.{◌≡◌, ◌≤◌, ◌<◌, ◌↔◌, IfOk, IfErr, OnOk, IsTrue, length, nat_le};
ghost use Rattle.std.specs.List.{position};
ghost use Rattle.std.specs.List.Sorted.{IsNonDecreasingBy};
ghost use Rattle.ordup_limits.specs.Entries.{are_one_entry, changed, has_few, in_force, latest, put, HoldFrom};
ghost use Rattle.ordup_limits.specs.Limits.{are_on_one_scope};
ghost use Rattle.ordup_limits.specs.Sizes.{most_entries, most_limits};

use crate::limit::Limit;
use crate::limit_entry::LimitEntry;
use crate::limit_list::LimitList;
use crate::sizes::{MOST_ENTRIES, MOST_LIMITS};
use ordup_objects::Refusal;
use std::alloc::Allocator;

/// Whether each of these entries holds from a place or before.
pub(crate) fn hold_from(entries: &[LimitEntry], place: u64) -> bool
    requires { IsNonDecreasingBy (λ e. e.place) entries.now }
    ensures { IsTrue result ↔ HoldFrom place entries.now }
{
    match entries.last() {
        Some(entry) => entry.place <= place,
        None => true,
    }
}

/// The limits that are in force at a place.
pub(crate) fn in_force(entries: &[LimitEntry], place: u64) -> LimitList
    requires scopes { length (latest entries.now) ≤ most_limits }
    requires rising { IsNonDecreasingBy (λ e. e.place) entries.now }
    ensures { result ≡ in_force entries.now place }
{
    let mut limits = LimitList::new();
    for entry in entries {
        if entry.place > place {
            return limits;
        }
        limits.put(&entry.limit);
    }
    limits
}

/// Whether this entry may be put among these, whose scopes have the limits.
pub(crate) fn has_spare(entries: &[LimitEntry], limits: &LimitList, entry: &LimitEntry) -> bool
    requires few { length entries.now ≤ most_entries }
    requires rising { IsNonDecreasingBy (λ e. e.place) entries.now }
    requires limits { limits.now ≡ latest entries.now }
    requires changed { latest (changed entries.now entry.now) ≡ put are_on_one_scope limits.now entry.now.limit }
    ensures { result ≡ has_few (changed entries.now entry.now) }
{
    has_spare_scope(limits, &entry.limit) && has_spare_entry(entries, entry)
}

/// Whether the scope is among those of the limits, or there are fewer than 64.
fn has_spare_scope(limits: &LimitList, limit: &Limit) -> bool
    ensures { result ≡ nat_le (length (put are_on_one_scope limits.now limit.now)) most_limits }
{
    let count = limits.len();
    match limits.index_of(&limit.scope) {
        Some(_) => true,
        None => count < MOST_LIMITS,
    }
}

/// Whether the entry would take the place of one of these, or there are fewer than 1,088.
fn has_spare_entry(entries: &[LimitEntry], entry: &LimitEntry) -> bool
    requires few { length entries.now ≤ most_entries }
    requires rising { IsNonDecreasingBy (λ e. e.place) entries.now }
    ensures { result ≡ nat_le (length (changed entries.now entry.now)) most_entries }
{
    match index_of(entries, entry) {
        Some(_) => true,
        None => entries.len() < MOST_ENTRIES,
    }
}

/// Puts an entry in the place of the one of its scope and place, or else as the last. The only refusal is `NoMemory`.
pub(crate) fn put_entry<A: Allocator + Copy>(
    entries: &mut Vec<LimitEntry, A>,
    entry: &LimitEntry,
) -> Result<(), Refusal>
    requires rising { IsNonDecreasingBy (λ e. e.place) entries.old.items }
    ensures changed { OnOk result (entries.new.items ≡ changed entries.old.items entry.now) }
    ensures refused { IfErr result (λ e. e ≡ Refusal.NoMemory) }
    ensures err { IfErr result (λ _. entries.new.items ≡ entries.old.items) }
{
    match index_of(entries.as_slice(), entry) {
        Some(index) => entries[index] = *entry,
        None => entries.push(*entry)?,
    }
    Ok(())
}

/// The index of the entry of the same scope and place, if there is one. A change is made at one of the last places as a rule, so it
/// is looked for among the entries from its place on.
fn index_of(entries: &[LimitEntry], entry: &LimitEntry) -> Option<usize>
    requires { IsNonDecreasingBy (λ e. e.place) entries.now }
    ensures { result ≡ position (λ e. are_one_entry e entry.now) entries.now }
{
    let place = entry.place;
    let before = entries.partition_point(|e| e.place < place);
    match index_among(&entries[before..], entry) {
        Some(index) => Some(before + index),
        None => None,
    }
}

/// The index of the entry of the same scope and place, if there is one, found from the first on.
fn index_among(entries: &[LimitEntry], entry: &LimitEntry) -> Option<usize>
    ensures { result ≡ position (λ e. are_one_entry e entry.now) entries.now }
{
    entries.iter().position(|e| e.limit.scope == entry.limit.scope && e.place == entry.place)
}
