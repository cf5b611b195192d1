//! The record of a site, as text in a buffer.
ghost use Rattle.std.specs.Prelude.{◌≡◌, MatchResult, Ok, Err};
ghost use Rattle.ordup_rows.specs.Rows.{rows_of, rows_text};
ghost use Rattle.ordup_c.specs.Records.{Copies, Forms, Tells, record_in, record_named};

use crate::status::{DONE, MORE, NO_MEMORY, NOT_STARTED, UNKNOWN_SITE};
use ordup_answers::ScriptEnd;
use ordup_audit::RecordView;
use ordup_primary::Primary;
use ordup_record::view_of;
use ordup_rows::write_view;
use std::alloc::Global;

/// Tells the record of the site of this name: how long it is, and its text where it fits.
pub(crate) fn tell_record(
    alloc: Global,
    end: &ScriptEnd,
    site: &[u8],
    out: &mut [u8],
    written: &mut usize,
) -> u32
    ensures { Tells (record_in end.now site.now) out.old out.new written.new result }
{
    match record_text(alloc, end, site) {
        Ok(text) => {
            *written = text.len();
            let status = copy_whole(text.as_slice(), DONE, out);
            drop(text);
            status
        }
        Err(status) => {
            *written = 0;
            status
        }
    }
}

/// Writes a text over the front of a buffer, where it fits. Then the answer is this status.
pub(crate) fn copy_whole(text: &[u8], done: u32, out: &mut [u8]) -> u32
    ensures { Copies text.now done out.old out.new result }
{
    if text.len() > out.len() {
        return MORE;
    }
    out[..text.len()].copy_from_slice(text);
    done
}

/// The text of the record of the site of this name.
fn record_text(alloc: Global, end: &ScriptEnd, site: &[u8]) -> Result<Vec<u8>, u32>
    ensures { MatchResult result (λ v. Forms (record_in end.now site.now) (Ok v.items)) (λ status. Forms (record_in end.now site.now) (Err status)) }
{
    match end {
        ScriptEnd::Declared(_) => Err(NOT_STARTED),
        ScriptEnd::Running(world) => text_of_site(alloc, world.primary(), site),
    }
}

/// The text of the record of the site of this name.
fn text_of_site(alloc: Global, primary: &Primary, site: &[u8]) -> Result<Vec<u8>, u32>
    ensures { MatchResult result (λ v. Forms (record_named primary.now site.now) (Ok v.items)) (λ status. Forms (record_named primary.now site.now) (Err status)) }
{
    primary.keeps();
    let Some(site) = primary.setup().find_site(site) else {
        return Err(UNKNOWN_SITE);
    };
    match view_of(primary, site) {
        Ok(audited) => text_of(alloc, &audited),
        Err(_) => Err(UNKNOWN_SITE),
    }
}

/// The text of a record.
fn text_of(alloc: Global, audited: &RecordView<'_>) -> Result<Vec<u8>, u32>
    ensures { MatchResult result (λ v. v.items ≡ rows_text (rows_of audited.now)) (λ status. status ≡ NO_MEMORY) }
{
    let mut text = Vec::new(alloc);
    match write_view(alloc, audited, &mut text) {
        Ok(()) => Ok(text),
        Err(_) => {
            drop(text);
            Err(NO_MEMORY)
        }
    }
}
