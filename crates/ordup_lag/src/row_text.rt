//! The text of the lag: its header, and the line of a row.

ghost use Rattle.std.specs.Prelude.{◌≡◌, ◌++◌, ◌+◌, ◌*◌, ◌≤◌, OnOk, Option, length, min, option_map, slice_get, Some};
ghost use Rattle.ordup_objects.specs.Serial.{History};
ghost use Rattle.ordup_log.specs.Groups.{GroupList};
ghost use Rattle.ordup_log.specs.Spans.{IsScopeKnown};
ghost use Rattle.ordup_limits.specs.Entries.{in_force, latest};
ghost use Rattle.ordup_limits.specs.Ledgers.{StandsFor, StandsAt};
ghost use Rattle.ordup_limits.specs.Sizes.{most_limits};
ghost use Rattle.ordup_lag.specs.declared.amount_cell.TheConstants.{CELL_BYTES};
ghost use Rattle.ordup_rows.specs.Rows.{scope_text};
ghost use Rattle.ordup_audit.specs.Records.{history_of, report_at};
ghost use Rattle.ordup_audit.specs.Validity.{IsValid};
ghost use Rattle.ordup_lag.specs.LagRows.{AreFew, row_at, uses_of, window_of as window_in};
ghost use Rattle.ordup_lag.specs.Texts.{head_text, round_text, row_text, scope_head, scope_heads, use_text, uses_text, window_text};

use crate::amount_cell::{AmountCell, CELL_BYTES};
use crate::offsets::Offsets;
use crate::places::{has_round, window_of};
use ordup_audit::Record;
use ordup_limits::{Groups, LagLedger, Scope};
use ordup_objects::ObjectTable;
use ordup_text::{TextBuffer, push_with_number, put_with_number};
use std::alloc::{AllocError, Allocator};

/// Adds a text and a name.
fn push_with_name<A: Allocator + Copy>(
    out: &mut TextBuffer<A>,
    text: &[u8],
    name: &[u8],
) -> Result<(), AllocError>
    ensures { OnOk result (out.new.text ≡ out.old.text ++ (text.now ++ name.now)) }
{
    out.push(text)?;
    out.push(name)
}

/// Adds a scope.
fn push_scope<A: Allocator + Copy>(
    out: &mut TextBuffer<A>,
    objects: &ObjectTable<A>,
    groups: &Groups<A>,
    scope: &Scope,
) -> Result<(), AllocError>
    requires { IsScopeKnown (length objects.now) groups.now scope.now }
    ensures { OnOk result (out.new.text ≡ out.old.text ++ scope_text objects.now groups.now scope.now) }
{
    match *scope {
        Scope::Object(object) => push_with_name(out, b"object:", objects.name(object).as_bytes()),
        Scope::Group(group) => push_with_name(out, b"group:", groups.name(group).as_bytes()),
        Scope::All => out.push(b"all"),
        Scope::Count => out.push(b"count"),
    }
}

/// Adds the names of the two columns of a limit.
fn push_scope_head<A: Allocator + Copy>(
    out: &mut TextBuffer<A>,
    objects: &ObjectTable<A>,
    groups: &Groups<A>,
    scope: &Scope,
) -> Result<(), AllocError>
    requires { IsScopeKnown (length objects.now) groups.now scope.now }
    ensures { OnOk result (out.new.text ≡ out.old.text ++ scope_head objects.now groups.now scope.now) }
{
    out.push(b",weight ")?;
    push_scope(out, objects, groups, scope)?;
    out.push(b",amount ")?;
    push_scope(out, objects, groups, scope)
}

/// Adds the names of the columns of all limits.
fn push_scope_heads<A: Allocator + Copy>(
    out: &mut TextBuffer<A>,
    audited: &Record<A>,
) -> Result<(), AllocError>
    ensures { OnOk result (out.new.text ≡ out.old.text ++ scope_heads audited.now.objects audited.now.groups (latest audited.now.limits) (length (latest audited.now.limits))) }
{
    audited.keeps();
    let limits = audited.limits();
    for number in 0..limits.len() {
        let (scope, _) = limits.get(number);
        push_scope_head(out, audited.objects(), audited.groups(), &scope)?;
    }
    Ok(())
}

/// Adds the header.
pub(crate) fn push_head<A: Allocator + Copy>(
    out: &mut TextBuffer<A>,
    audited: &Record<A>,
) -> Result<(), AllocError>
    ensures { OnOk result (out.new.text ≡ out.old.text ++ head_text audited.now) }
{
    out.push(b"place,reported")?;
    push_scope_heads(out, audited)?;
    out.push(b",round,window\n")
}

/// Puts how much of a limit is used: a weight, and the amount of the limit. Two cells must fit into the spare capacity.
fn put_use<A: Allocator + Copy>(
    out: &mut TextBuffer<A>,
    cell: &mut AmountCell,
    weight: u64,
    amount: u64,
)
    requires { 2 * CELL_BYTES ≤ out.old.spare }
    ensures text { out.new.text ≡ out.old.text ++ use_text (Some (record { weight = weight; amount = amount })) }
    ensures spare { out.old.spare ≤ out.new.spare + 2 * CELL_BYTES }
{
    put_with_number(out, b",", weight);
    cell.put(out, amount);
}

/// Puts how much of the limit with this index the span of a ledger uses, or two empty cells where there is no such limit yet. Two
/// cells must fit into the spare capacity.
fn put_any_use<A: Allocator + Copy>(
    out: &mut TextBuffer<A>,
    cell: &mut AmountCell,
    ledger: &LagLedger<A>,
    index: usize,
)
    requires { 2 * CELL_BYTES ≤ out.old.spare }
    ensures text { (h : History) (groups : GroupList) → StandsFor ledger.now h groups →
        out.new.text ≡ out.old.text ++ use_text (slice_get (uses_of ledger.now h groups) index) }
    ensures spare { out.old.spare ≤ out.new.spare + 2 * CELL_BYTES }
{
    let limits = ledger.limits();
    if index < limits.len() {
        put_use(out, cell, ledger.weight(index), limits[index].amount);
    } else {
        out.put(b",,");
    }
}

/// Adds how much of each limit the span of a ledger uses, with cells for this many limits.
fn push_uses<A: Allocator + Copy>(
    out: &mut TextBuffer<A>,
    cells: &mut Vec<AmountCell, A>,
    ledger: &LagLedger<A>,
    scopes: usize,
) -> Result<(), AllocError>
    requires cells { scopes ≤ length cells.old.items }
    requires few { scopes ≤ most_limits }
    ensures count { OnOk result (length cells.new.items ≡ length cells.old.items) }
    ensures text { OnOk result ((h : History) (groups : GroupList) → StandsFor ledger.now h groups →
        out.new.text ≡ out.old.text ++ uses_text (uses_of ledger.now h groups) scopes) }
{
    out.reserve(2 * CELL_BYTES * scopes)?;
    for index in 0..scopes {
        put_any_use(out, &mut cells[index], ledger, index);
    }
    Ok(())
}

/// Adds whether a place has a round.
fn push_round<A: Allocator + Copy>(
    out: &mut TextBuffer<A>,
    is_round: bool,
) -> Result<(), AllocError>
    ensures { OnOk result (out.new.text ≡ out.old.text ++ round_text is_round) }
{
    if is_round {
        out.push(b",1")
    } else {
        out.push(b",0")
    }
}

/// The number of the window that has a place, counted on from those before the record, if there is one.
fn window_number<A: Allocator + Copy>(
    audited: &Record<A>,
    before: Offsets,
    place: u64,
) -> Option<u64>
    requires valid { IsValid audited.now }
    requires few { AreFew before }
    ensures { result ≡ option_map (λ n. before.windows + n) (window_in audited.now place) }
{
    audited.keeps();
    let number = window_of(audited.windows(), place)?;
    Some(before.windows + number)
}

/// Adds the number of a window, if there is one, and ends the line.
fn push_window<A: Allocator + Copy>(
    out: &mut TextBuffer<A>,
    window: Option<u64>,
) -> Result<(), AllocError>
    ensures { OnOk result (out.new.text ≡ out.old.text ++ window_text window) }
{
    match window {
        Some(number) => {
            push_with_number(out, b",", number)?;
            out.push(b"\n")
        }
        None => out.push(b",\n"),
    }
}

/// Adds the line of a place, by a ledger at the span of the updates that the site had not reported at its decision.
pub(crate) fn push_row<A: Allocator + Copy>(
    out: &mut TextBuffer<A>,
    cells: &mut Vec<AmountCell, A>,
    audited: &Record<A>,
    before: Offsets,
    ledger: &LagLedger<A>,
    place: u64,
) -> Result<(), AllocError>
    requires limits { length cells.old.items ≡ length (latest audited.now.limits) }
    requires valid { IsValid audited.now }
    requires before { AreFew before }
    requires stands { StandsAt (history_of audited.now) audited.now.groups (in_force audited.now.limits place)
        (min (report_at audited.now.reports place) place) place ledger.now }
    ensures count { OnOk result (length cells.new.items ≡ length cells.old.items) }
    ensures text { OnOk result (out.new.text ≡ out.old.text ++ row_text (length (latest audited.now.limits)) (row_at before audited.now place)) }
{
    audited.keeps();
    out.push_number(before.places + place)?;
    push_with_number(out, b",", before.places + audited.reported_at(place))?;
    push_uses(out, cells, ledger, audited.limits().len())?;
    push_round(out, has_round(audited.rounds(), place))?;
    push_window(out, window_number(audited, before, place))
}
