//! The record of a site, as text in a buffer.
ghost use Rattle.std.specs.Prelude.{◌≡◌, MatchOption, MatchResult, Ok, Err};
ghost use Rattle.ordup_rows.specs.Rows.{rows_of, rows_text};
ghost use Rattle.ordup_shared.specs.Records.{Copies, Forms, Lacks, RecordCall, Tells, record_at};
ghost use Rattle.ordup_shared.specs.Things.{book_of};
ghost use Rattle.ordup_shared.specs.declared.status.TheConstants.{NO_MEMORY, OTHER};

use crate::handle::Handle;
use crate::status::{CLOSED, DONE, MORE, NO_MEMORY, OTHER, status_of};
use crate::thing::Kind;
use ordup_audit::RecordView;
use ordup_objects::{Refusal, SiteId};
use ordup_primary::Primary;
use ordup_record::view_of;
use ordup_rows::write_view;
use std::alloc::Global;

// promise stays: as ordup_site_read stays
// promise record: a record is told whole or not at all, with its length
/// Tells the record of a site: how long it is, and its text where it fits.
#[unsafe(no_mangle)]
pub extern "C" fn ordup_book_record(
    alloc: Global,
    book: &mut Handle,
    site: u32,
    rows: &mut [u8],
    written: &mut usize,
) -> u32
    ensures stays { book.new.held.thing ≡ book.old.held.thing }
    ensures record { RecordCall book.old.held.thing site rows.old rows.new written.new result }
{
    let Some(thing) = book.take(alloc) else {
        *written = 0;
        return CLOSED;
    };
    let status = record_in(alloc, &thing.kind, site, rows, written);
    book.put(thing);
    status
}

fn record_in(alloc: Global, kind: &Kind, site: u32, rows: &mut [u8], written: &mut usize) -> u32
    ensures { MatchOption (book_of kind.now) (Lacks OTHER rows.old rows.new written.new result) (λ b. Tells (record_at b.book.primary site) rows.old rows.new written.new result) }
{
    match kind {
        Kind::OfBook(book) => tell_record(alloc, book.book.primary(), site, rows, written),
        Kind::OfSetup(_) | Kind::OfSite(_) | Kind::OfQuery(_) => {
            *written = 0;
            OTHER
        }
    }
}

fn tell_record(
    alloc: Global,
    primary: &Primary,
    site: u32,
    rows: &mut [u8],
    written: &mut usize,
) -> u32
    ensures { Tells (record_at primary.now site) rows.old rows.new written.new result }
{
    match record_text(alloc, primary, site) {
        Ok(text) => {
            *written = text.len();
            let status = copy_whole(text.as_slice(), rows);
            drop(text);
            status
        }
        Err(status) => {
            *written = 0;
            status
        }
    }
}

/// Writes a text over the front of a buffer, where it fits.
fn copy_whole(text: &[u8], out: &mut [u8]) -> u32
    ensures { Copies text.now out.old out.new result }
{
    if text.len() > out.len() {
        return MORE;
    }
    out[..text.len()].copy_from_slice(text);
    DONE
}

/// The text of the record of a site.
fn record_text(alloc: Global, primary: &Primary, site: u32) -> Result<Vec<u8>, u32>
    ensures { MatchResult result (λ v. Forms (record_at primary.now site) (Ok v.items)) (λ status. Forms (record_at primary.now site) (Err status)) }
{
    primary.keeps();
    if site as usize >= primary.setup().sites() {
        return Err(status_of(&Refusal::UnknownSite));
    }
    match view_of(primary, SiteId::new(site as u8)) {
        Ok(audited) => text_of(alloc, &audited),
        Err(refusal) => Err(status_of(&refusal)),
    }
}

/// The text of a record.
fn text_of(alloc: Global, audited: &RecordView<'_>) -> Result<Vec<u8>, u32>
    ensures { MatchResult result (λ v. v.items ≡ rows_text (rows_of audited.now)) (λ status. status ≡ NO_MEMORY) }
{
    let mut text = Vec::new(alloc);
    match write_view(alloc, audited, &mut text) {
        Ok(()) => Ok(text),
        Err(_) => {
            drop(text);
            Err(NO_MEMORY)
        }
    }
}
