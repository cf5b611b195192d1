//! The lag as text, a piece at a time.

ghost use Rattle.std.specs.Prelude.{◌≡◌, ◌++◌, ◌+◌, ◌<◌, [], IfErr, IfOk, OnOk, length, min, take};
ghost use Rattle.std.specs.Io.KnownBytes.{Appends};
ghost use Rattle.ordup_text.specs.Fronts.{AppendsFront};
ghost use Rattle.ordup_rows.specs.Forming.{SendsUpto};
ghost use Rattle.ordup_limits.specs.Entries.{latest};
ghost use Rattle.ordup_audit.specs.Beginning.{HaveBegun};
ghost use Rattle.ordup_limits.specs.Ledgers.{StandsAt};
ghost use Rattle.ordup_audit.specs.Records.{history_of, report_at};
ghost use Rattle.ordup_audit.specs.Validity.{IsValid};
ghost use Rattle.ordup_lag.specs.LagRows.{AreFew};
ghost use Rattle.ordup_lag.specs.Texts.{head_text, rows_upto, lag_after};

use crate::amount_cell::{AmountCell, amount_cells};
use crate::offsets::Offsets;
use crate::row_text::{push_head, push_row};
use ordup_audit::{Record, begin_limits, first_ledger};
use ordup_limits::LagLedger;
use ordup_text::{TextBuffer, WriteFault, send};
use std::alloc::{AllocError, Allocator};
use std::io::Write;

/// Why not all of the lag was written.
#[derive(Clone, Copy, Debug, PartialEq, Eq)]
pub enum LagFault {
    /// A write failed, or took no byte.
    Write,
    /// Memory was refused, before the first write.
    NoMemory,
}

/// How many bytes of rows are handed out at once.
const PIECE: usize = 65_536;

/// The most bytes between two times that rows are handed out: a piece, and the header or a row.
const MOST_UNSENT_BYTES: usize = PIECE + 16_384;

// promise written front refused: the lag of a valid record is written in the cells of FORMATS, counted on from earlier records
/// Writes the lag of a valid record: a header, and a row for each decided place in order. Places and windows are counted on from
/// those `before` the record. It does not flush the writer. It promises, clause by clause, of a writer whose bytes are known:
///
/// - `written`: after success the text of the lag stands after what the writer held before.
/// - `front`: in every case a prefix of that text stands there, which may be none of it or all.
/// - `refused`: where memory was refused, the writer is as it was.
pub fn write_lag<A: Allocator + Copy, W: Write>(
    alloc: A,
    audited: &Record<A>,
    before: Offsets,
    output: &mut W,
) -> Result<(), LagFault>
    requires valid { IsValid audited.now }
    requires few { AreFew before }
    ensures written { OnOk result (Appends (W.contents output.old) (W.contents output.new) (lag_after before audited.now)) }
    ensures front { AppendsFront (W.contents output.old) (W.contents output.new) (lag_after before audited.now) }
    ensures refused { IfErr result (λ e. e ≡ LagFault.NoMemory → output.new ≡ output.old) }
{
    let Ok(mut ledger) = first_ledger(alloc, audited) else {
        return Err(LagFault::NoMemory);
    };
    let written = write_with(alloc, &mut ledger, audited, before, output);
    drop(ledger);
    written
}

/// Writes the lag as [`write_lag`] does, by a first ledger.
fn write_with<A: Allocator + Copy, W: Write>(
    alloc: A,
    ledger: &mut LagLedger<A>,
    audited: &Record<A>,
    before: Offsets,
    output: &mut W,
) -> Result<(), LagFault>
    requires valid { IsValid audited.now }
    requires few { AreFew before }
    requires first { StandsAt (history_of audited.now) audited.now.groups [] 0 0 ledger.old }
    ensures written { OnOk result (Appends (W.contents output.old) (W.contents output.new) (lag_after before audited.now)) }
    ensures front { AppendsFront (W.contents output.old) (W.contents output.new) (lag_after before audited.now) }
    ensures refused { IfErr result (λ e. e ≡ LagFault.NoMemory → output.new ≡ output.old) }
{
    let Ok(mut cells) = amount_cells(alloc, audited.limits().len()) else {
        return Err(LagFault::NoMemory);
    };
    let mut out = TextBuffer::new(alloc);
    let written = write_rows(&mut out, &mut cells, ledger, audited, before, output);
    drop(out);
    drop(cells);
    written
}

/// Writes the lag as [`write_lag`] does, by a buffer that is empty, a cell for each limit and a first ledger.
fn write_rows<A: Allocator + Copy, W: Write>(
    out: &mut TextBuffer<A>,
    cells: &mut Vec<AmountCell, A>,
    ledger: &mut LagLedger<A>,
    audited: &Record<A>,
    before: Offsets,
    output: &mut W,
) -> Result<(), LagFault>
    requires valid { IsValid audited.now }
    requires few { AreFew before }
    requires empty { out.old.text ≡ [] }
    requires limits { length cells.old.items ≡ length (latest audited.now.limits) }
    requires first { StandsAt (history_of audited.now) audited.now.groups [] 0 0 ledger.old }
    ensures written { OnOk result (Appends (W.contents output.old) (W.contents output.new) (lag_after before audited.now)) }
    ensures front { AppendsFront (W.contents output.old) (W.contents output.new) (lag_after before audited.now) }
    ensures refused { IfErr result (λ e. e ≡ LagFault.NoMemory → output.new ≡ output.old) }
{
    let Ok(()) = form_head(out, audited) else {
        return Err(LagFault::NoMemory);
    };
    match send_rows(out, cells, ledger, audited, before, output) {
        Ok(()) => Ok(()),
        Err(_) => Err(LagFault::Write),
    }
}

/// Adds the header. It takes the memory that all rows need, so none of them is refused any.
fn form_head<A: Allocator + Copy>(
    out: &mut TextBuffer<A>,
    audited: &Record<A>,
) -> Result<(), AllocError>
    ensures { OnOk result (out.new.text ≡ out.old.text ++ head_text audited.now) }
{
    out.reserve(MOST_UNSENT_BYTES)?;
    push_head(out, audited)
}

/// Sends what is formed, and the row of each decided place after it.
fn send_rows<A: Allocator + Copy, W: Write>(
    out: &mut TextBuffer<A>,
    cells: &mut Vec<AmountCell, A>,
    ledger: &mut LagLedger<A>,
    audited: &Record<A>,
    before: Offsets,
    output: &mut W,
) -> Result<(), WriteFault>
    requires valid { IsValid audited.now }
    requires few { AreFew before }
    requires limits { length cells.old.items ≡ length (latest audited.now.limits) }
    requires first { StandsAt (history_of audited.now) audited.now.groups [] 0 0 ledger.old }
    ensures sent { OnOk result (Appends (W.contents output.old) (W.contents output.new) (out.old.text ++ rows_upto before audited.now (length audited.now.sets))) }
    ensures front { AppendsFront (W.contents output.old) (W.contents output.new) (out.old.text ++ rows_upto before audited.now (length audited.now.sets)) }
{
    audited.keeps();
    let mut begun = 0;
    for updates in 0..audited.decided() {
        begun = advance(ledger, audited, begun, updates);
        let Ok(()) = push_row(out, cells, audited, before, ledger, updates + 1) else {
            return Err(WriteFault);
        };
        send_many(out, output)?;
    }
    send(output, out.as_slice())
}

/// Moves a ledger from the row after this many updates to the next one: by an update, the limits that begin to hold with it, and
/// what the site has reported since. `begun` entries of the limits had begun to hold; it answers how many have then.
fn advance<A: Allocator + Copy>(
    ledger: &mut LagLedger<A>,
    audited: &Record<A>,
    begun: usize,
    updates: u64,
) -> usize
    requires valid { IsValid audited.now }
    requires there { updates < length audited.now.sets }
    requires begun { HaveBegun updates audited.now.limits begun }
    requires stands { StandsAt (history_of audited.now) audited.now.groups (latest (take begun audited.now.limits))
        (min (report_at audited.now.reports updates) updates) updates ledger.old }
    ensures begun { HaveBegun (updates + 1) audited.now.limits result }
    ensures stands { StandsAt (history_of audited.now) audited.now.groups (latest (take result audited.now.limits))
        (min (report_at audited.now.reports (updates + 1)) (updates + 1)) (updates + 1) ledger.new }
{
    audited.keeps();
    let (log, groups) = (audited.log(), audited.groups());
    audited.limits().keeps();
    let entries = audited.limits().entries();
    let place = updates + 1;
    ledger.extend(log, groups, place);
    let count = begin_limits(ledger, log, groups, entries, begun, place);
    ledger.reported(log, groups, audited.reported_at(place).min(place));
    count
}

/// Sends what is formed once it has as many bytes as a piece.
fn send_many<A: Allocator + Copy, W: Write>(
    out: &mut TextBuffer<A>,
    output: &mut W,
) -> Result<(), WriteFault>
    ensures sent { OnOk result (SendsUpto (W.contents output.old) (W.contents output.new) out.old.text out.new.text) }
    ensures front { AppendsFront (W.contents output.old) (W.contents output.new) out.old.text }
{
    if out.len() < PIECE {
        return Ok(());
    }
    send(output, out.as_slice())?;
    out.clear();
    Ok(())
}
