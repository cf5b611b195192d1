ghost use Rattle.std.specs.Prelude.{◌≡◌, ◌++◌, IfErr, OnErr, OnOk};
ghost use Rattle.std.specs.Io.KnownBytes.{Appends};
ghost use Rattle.ordup_text.specs.Fronts.{AppendsFront};
ghost use Rattle.ordup_rows.specs.Forming.{IsClean, csv_text, first_rows, last_rows, unsent};
ghost use Rattle.ordup_rows.specs.Rows.{rows_of, rows_text};
ghost use Rattle.ordup_rows.specs.Versions.{version_for};

use crate::forming::push_first_rows;
use crate::sending::{
    MOST_UNSENT_BYTES, hand_out, send_reports, send_rounds, send_sets, send_windows,
};
use csv::{Writer, WriterBuilder};
use ordup_audit::{Record, RecordView};
use ordup_text::WriteFault;
use std::alloc::{AllocError, Allocator};
use std::io::Write;

/// Why not all of a record was written.
#[derive(Clone, Copy, Debug, PartialEq, Eq)]
pub enum RecordWriteFault {
    /// A write failed, or took no byte.
    Write,
    /// Memory was refused, before the first write.
    NoMemory,
}

/// The most bytes of a column that is formed: a number, the kind of a change and two names have fewer.
const MOST_COLUMN_BYTES: usize = 64;

// promise written front refused: a record is written as its rows
// promise version_for: version 1 is written exactly if all limits hold from place 1 on
/// Writes a record. It does not flush the writer. It promises, clause by clause, of a writer whose bytes are known:
///
/// - `written`: after success the text of the record stands after what the writer held before.
/// - `front`: in every case a prefix of that text stands there, which may be none of it or all.
/// - `refused`: where memory was refused, the writer is as it was.
pub fn write_record<A: Allocator + Copy, W: Write>(
    alloc: A,
    audited: &Record<A>,
    output: &mut W,
) -> Result<(), RecordWriteFault>
    ensures written { OnOk result (Appends (W.contents output.old) (W.contents output.new) (rows_text (rows_of audited.now))) }
    ensures front { AppendsFront (W.contents output.old) (W.contents output.new) (rows_text (rows_of audited.now)) }
    ensures refused { IfErr result (λ e. e ≡ RecordWriteFault.NoMemory → output.new ≡ output.old) }
{
    write_view(alloc, &audited.view(), output)
}

// promise written front refused: as write_record written
// promise version_for: as write_record version_for
/// Writes a record that is lent, as [`write_record`] does: its rows go to the writer as they are formed, and its text is never
/// held whole. The clauses are those of [`write_record`].
pub fn write_view<A: Allocator + Copy, W: Write>(
    alloc: A,
    audited: &RecordView<'_, A>,
    output: &mut W,
) -> Result<(), RecordWriteFault>
    ensures written { OnOk result (Appends (W.contents output.old) (W.contents output.new) (rows_text (rows_of audited.now))) }
    ensures front { AppendsFront (W.contents output.old) (W.contents output.new) (rows_text (rows_of audited.now)) }
    ensures refused { IfErr result (λ e. e ≡ RecordWriteFault.NoMemory → output.new ≡ output.old) }
{
    let mut column = Vec::new(alloc);
    let mut rows = WriterBuilder::new().from_writer(Vec::new(alloc));
    let written = write_rows(&mut rows, &mut column, audited, output);
    drop(rows);
    drop(column);
    written
}

/// Writes a record as [`write_view`] does, in the memory of these rows and this column.
fn write_rows<A: Allocator + Copy, W: Write>(
    rows: &mut Writer<Vec<u8, A>>,
    column: &mut Vec<u8, A>,
    audited: &RecordView<'_, A>,
    output: &mut W,
) -> Result<(), RecordWriteFault>
    ensures written { OnOk result (Appends (W.contents output.old) (W.contents output.new) (rows_text (rows_of audited.now))) }
    ensures front { AppendsFront (W.contents output.old) (W.contents output.new) (rows_text (rows_of audited.now)) }
    ensures refused { IfErr result (λ e. e ≡ RecordWriteFault.NoMemory → output.new ≡ output.old) }
{
    audited.keeps();
    let Ok(()) = form_first_rows(rows, column, audited) else {
        return Err(RecordWriteFault::NoMemory);
    };
    match send_rows(rows, column, audited, output) {
        Ok(()) => Ok(()),
        Err(_) => Err(RecordWriteFault::Write),
    }
}

/// Forms the rows that stand before those of the changes. It takes the memory that all further rows need, so none of them is
/// refused any.
fn form_first_rows<A: Allocator + Copy>(
    rows: &mut Writer<Vec<u8, A>>,
    column: &mut Vec<u8, A>,
    audited: &RecordView<'_, A>,
) -> Result<(), AllocError>
    ensures clean { OnOk result (IsClean rows.new) }
    ensures text { OnOk result (unsent rows.new ≡ csv_text (first_rows (version_for audited.now.limits) audited.now)) }
{
    let alloc = *column.allocator();
    column.reserve(MOST_COLUMN_BYTES)?;
    *rows = WriterBuilder::new().from_writer(Vec::with_capacity(alloc, MOST_UNSENT_BYTES)?);
    push_first_rows(rows, column, audited)
}

/// Sends the first rows, and all further ones as they are formed.
fn send_rows<A: Allocator + Copy, W: Write>(
    rows: &mut Writer<Vec<u8, A>>,
    column: &mut Vec<u8, A>,
    audited: &RecordView<'_, A>,
    output: &mut W,
) -> Result<(), WriteFault>
    requires { IsClean rows.old }
    ensures sent { OnOk result (Appends (W.contents output.old) (W.contents output.new) (unsent rows.old ++ csv_text (last_rows audited.now))) }
    ensures front { AppendsFront (W.contents output.old) (W.contents output.new) (unsent rows.old ++ csv_text (last_rows audited.now)) }
{
    hand_out(rows, output)?;
    send_sets(rows, column, audited, output)?;
    send_reports(rows, audited.reports(), output)?;
    send_rounds(rows, audited.rounds(), output)?;
    send_windows(rows, audited.windows(), output)?;
    hand_out(rows, output)?;
    Ok(())
}
