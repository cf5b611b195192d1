//! How far a reading has come.
ghost use Rattle.std.specs.Prelude.{◌≡◌, true, false, None, IfOk, option_map, option_and_then};
ghost use Rattle.std.specs.Bool.{then_some};
ghost use Rattle.csv.specs.Records.{fields_of};
ghost use Rattle.ordup_check.specs.ColumnViews.{columns_view};
ghost use Rattle.ordup_rows.specs.RowKinds.{kind_of};
ghost use Rattle.ordup_rows.specs.Stages.{head_of, step, reading, with_row};
ghost use Rattle.ordup_check.specs.PartialRecords.{record_so_far};
ghost use Rattle.ordup_check.specs.Reading.{begins_record};
ghost use Rattle.ordup_check.specs.StageViews.{stage_of};

use crate::partial_record::PartialRecord;
use crate::partial_updates::PartialUpdates;
use crate::row_columns::{RowColumns, natural};
use csv::ByteRecord;
use ordup_limits::{Groups, LimitTable};
use ordup_objects::Name;
use ordup_objects::sizes::MOST_UPDATES;
use ordup_rows::{RowKind, Version};
use std::alloc::{AllocError, Global};
use std::mem::replace;

/// No row was read; or the version, how many updates are decided, and the record as far as its rows were read.
#[derive(Drop)]
pub enum Stage {
    Unread,
    Reading {
        version: Version,
        decided: u64,
        so_far: PartialRecord,
    },
}

/// The stage after the first row, if it may stand there.
fn read_head(alloc: Global, c: &RowColumns<'_>) -> Option<Stage>
    ensures { option_map stage_of result ≡ head_of (columns_view c.now) }
{
    let version = Version::parse(c.first)?;
    let decided = natural(c.third)?;
    if c.kind != b"ordup".as_slice() {
        return None;
    }
    let Ok(site) = Name::new(c.second) else {
        return None;
    };
    if decided > MOST_UPDATES as u64 {
        return None;
    }
    let so_far = PartialRecord {
        site,
        updates: PartialUpdates::new(alloc),
        groups: Groups::new(alloc),
        limits: LimitTable::new(alloc),
        reports: Vec::new(alloc),
        rounds: Vec::new(alloc),
        windows: Vec::new(alloc),
    };
    Some(Stage::Reading {
        version,
        decided,
        so_far,
    })
}

/// Takes the first row, where it may stand there, and answers whether it did.
// Not inlined, since memory for a stage would be cleared for each row.
#[inline(never)]
fn take_head(alloc: Global, stage: &mut Stage, c: &RowColumns<'_>) -> bool
    ensures taken { then_some result (stage_of stage.new) ≡ head_of (columns_view c.now) }
    ensures kept { result ≡ false → stage.new ≡ stage.old }
{
    match read_head(alloc, c) {
        Some(reading) => {
            drop(replace(stage, reading));
            true
        }
        None => false,
    }
}

/// Takes a row that is not the first, where it may stand there, and answers whether it did.
fn take_later_row(
    version: Version,
    decided: u64,
    so_far: &mut PartialRecord,
    c: &RowColumns<'_>,
) -> Result<bool, AllocError>
    ensures taken { IfOk result (λ is_taken. then_some is_taken (reading version decided (record_so_far so_far.new))
        ≡ option_and_then (λ kind. option_map (λ r. reading version decided r)
        (with_row version decided (record_so_far so_far.old) kind (columns_view c.now)))
        (kind_of c.now.kind.now)) }
    ensures kept { kind_of c.now.kind.now ≡ None → so_far.new ≡ so_far.old }
{
    let Some(kind) = RowKind::parse(c.kind) else {
        return Ok(false);
    };
    so_far.add_row(version, decided, kind, c)
}

/// Takes a row, where it may stand there, and answers whether it did. A row that begins a record and is not taken changes nothing.
// In place, since a stage has tables: by value they would be moved a few times with each row. Inlined, since rows are taken in a loop.
#[inline(always)]
pub fn take_row(alloc: Global, stage: &mut Stage, row: &ByteRecord) -> Result<bool, AllocError>
    ensures taken { IfOk result (λ is_taken. then_some is_taken (stage_of stage.new) ≡ step (stage_of stage.old) (fields_of row.now)) }
    ensures kept { IfOk result (λ is_taken. is_taken ≡ false → begins_record (fields_of row.now) ≡ true
        → stage_of stage.new ≡ stage_of stage.old) }
{
    let Some(columns) = RowColumns::split(row) else {
        return Ok(false);
    };
    match stage {
        Stage::Unread => Ok(take_head(alloc, stage, &columns)),
        Stage::Reading {
            version,
            decided,
            so_far,
        } => take_later_row(*version, *decided, so_far, &columns),
    }
}
