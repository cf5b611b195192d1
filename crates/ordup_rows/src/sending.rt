//! Rows that go to a writer as they are formed, a piece at a time.
ghost use Rattle.std.specs.Prelude.{◌≡◌, ◌++◌, ◌+◌, ◌<◌, [], OnErr, OnOk, get_or, length, map};
ghost use Rattle.std.specs.Io.KnownBytes.{Appends};
ghost use Rattle.ordup_text.specs.Fronts.{AppendsFront};
ghost use Rattle.ordup_audit.specs.RecordViews.{changes_in};
ghost use Rattle.ordup_rows.specs.Forming.{AddsRows, IsClean, SendsUpto, csv_text, unsent};
ghost use Rattle.ordup_rows.specs.Rows.{change_row, change_rows, counted, report_row, round_row, window_row};

use crate::forming::{push_report, push_round, push_set, push_window};
use csv::{Writer, WriterBuilder};
use ordup_audit::{RecordView, ReportChanges};
use ordup_rounds::Window;
use ordup_text::{WriteFault, send};
use std::alloc::{AllocError, Allocator};
use std::io::Write;
use std::mem;

/// How many bytes of rows are handed out at once.
const PIECE: usize = 65_536;

/// The most bytes between two times that rows are handed out: a piece, and twice what `csv` keeps back, more than an update has.
pub(crate) const MOST_UNSENT_BYTES: usize = PIECE + 2 * 8_192;

/// Sends the rows that are not sent yet. The memory that they took is kept for the next ones.
pub(crate) fn hand_out<A: Allocator + Copy, W: Write>(
    rows: &mut Writer<Vec<u8, A>>,
    output: &mut W,
) -> Result<(), WriteFault>
    requires { IsClean rows.old }
    ensures clean { OnOk result (IsClean rows.new) }
    ensures none { OnOk result (unsent rows.new ≡ []) }
    ensures sent { OnOk result (Appends (W.contents output.old) (W.contents output.new) (unsent rows.old)) }
    ensures front { AppendsFront (W.contents output.old) (W.contents output.new) (unsent rows.old) }
{
    let alloc = *rows.get_ref().allocator();
    let formed = mem::replace(rows, WriterBuilder::new().from_writer(Vec::new(alloc)));
    let Ok(mut text) = formed.into_inner() else {
        return Err(WriteFault);
    };
    let sent = send(output, text.as_slice());
    text.clear();
    *rows = WriterBuilder::new().from_writer(text);
    sent
}

/// Sends the rows once they have as many bytes as a piece.
#[inline(always)]
fn hand_out_many<A: Allocator + Copy, W: Write>(
    rows: &mut Writer<Vec<u8, A>>,
    output: &mut W,
) -> Result<(), WriteFault>
    requires { IsClean rows.old }
    ensures clean { OnOk result (IsClean rows.new) }
    ensures sent { OnOk result (SendsUpto (W.contents output.old) (W.contents output.new) (unsent rows.old) (unsent rows.new)) }
    ensures front { AppendsFront (W.contents output.old) (W.contents output.new) (unsent rows.old) }
{
    if rows.get_ref().len() < PIECE {
        return Ok(());
    }
    hand_out(rows, output)
}

/// Forms the rows of the decided update with this index.
fn push_update<A: Allocator + Copy>(
    rows: &mut Writer<Vec<u8, A>>,
    column: &mut Vec<u8, A>,
    audited: &RecordView<'_, A>,
    index: u64,
) -> Result<(), AllocError>
    requires clean { IsClean rows.old }
    requires there { index < length audited.now.sets }
    ensures clean { OnOk result (IsClean rows.new) }
    ensures text { OnOk result (AddsRows rows.old rows.new (counted (change_row audited.now.objects (index + 1)) 1 (get_or audited.now.sets index []))) }
{
    audited.keeps();
    let changes = audited.set(index + 1).changes();
    push_set(rows, column, audited.objects(), index + 1, changes)
}

/// Forms the rows of the decided updates, and sends most of them.
pub(crate) fn send_sets<A: Allocator + Copy, W: Write>(
    rows: &mut Writer<Vec<u8, A>>,
    column: &mut Vec<u8, A>,
    audited: &RecordView<'_, A>,
    output: &mut W,
) -> Result<(), WriteFault>
    requires { IsClean rows.old }
    ensures clean { OnOk result (IsClean rows.new) }
    ensures sent { OnOk result (SendsUpto (W.contents output.old) (W.contents output.new) (unsent rows.old ++ csv_text (change_rows audited.now.objects 1 audited.now.sets)) (unsent rows.new)) }
    ensures front { OnErr result (AppendsFront (W.contents output.old) (W.contents output.new) (unsent rows.old ++ csv_text (change_rows audited.now.objects 1 audited.now.sets))) }
{
    audited.keeps();
    for index in 0..audited.decided() {
        let Ok(()) = push_update(rows, column, audited, index) else {
            return Err(WriteFault);
        };
        hand_out_many(rows, output)?;
    }
    Ok(())
}

/// Forms the rows of the report changes, and sends most of them.
pub(crate) fn send_reports<A: Allocator + Copy, W: Write>(
    rows: &mut Writer<Vec<u8, A>>,
    changes: ReportChanges<'_>,
    output: &mut W,
) -> Result<(), WriteFault>
    requires { IsClean rows.old }
    ensures clean { OnOk result (IsClean rows.new) }
    ensures sent { OnOk result (SendsUpto (W.contents output.old) (W.contents output.new) (unsent rows.old ++ csv_text (map report_row (changes_in changes.entry))) (unsent rows.new)) }
    ensures front { OnErr result (AppendsFront (W.contents output.old) (W.contents output.new) (unsent rows.old ++ csv_text (map report_row (changes_in changes.entry)))) }
{
    for i in 0..changes.len() {
        let Ok(()) = push_report(rows, changes.at(i)) else {
            return Err(WriteFault);
        };
        hand_out_many(rows, output)?;
    }
    Ok(())
}

/// Forms the rows of the rounds, and sends most of them.
pub(crate) fn send_rounds<A: Allocator + Copy, W: Write>(
    rows: &mut Writer<Vec<u8, A>>,
    places: &[u64],
    output: &mut W,
) -> Result<(), WriteFault>
    requires { IsClean rows.old }
    ensures clean { OnOk result (IsClean rows.new) }
    ensures sent { OnOk result (SendsUpto (W.contents output.old) (W.contents output.new) (unsent rows.old ++ csv_text (counted round_row 1 places.now)) (unsent rows.new)) }
    ensures front { OnErr result (AppendsFront (W.contents output.old) (W.contents output.new) (unsent rows.old ++ csv_text (counted round_row 1 places.now))) }
{
    for (i, place) in places.iter().enumerate() {
        let Ok(()) = push_round(rows, i + 1, *place) else {
            return Err(WriteFault);
        };
        hand_out_many(rows, output)?;
    }
    Ok(())
}

/// Forms the rows of the windows, and sends most of them.
pub(crate) fn send_windows<A: Allocator + Copy, W: Write>(
    rows: &mut Writer<Vec<u8, A>>,
    windows: &[Window],
    output: &mut W,
) -> Result<(), WriteFault>
    requires { IsClean rows.old }
    ensures clean { OnOk result (IsClean rows.new) }
    ensures sent { OnOk result (SendsUpto (W.contents output.old) (W.contents output.new) (unsent rows.old ++ csv_text (counted window_row 1 windows.now)) (unsent rows.new)) }
    ensures front { OnErr result (AppendsFront (W.contents output.old) (W.contents output.new) (unsent rows.old ++ csv_text (counted window_row 1 windows.now))) }
{
    for (i, window) in windows.iter().enumerate() {
        let Ok(()) = push_window(rows, i + 1, *window) else {
            return Err(WriteFault);
        };
        hand_out_many(rows, output)?;
    }
    Ok(())
}
