//! The functions that C calls.
ghost use Rattle.std.specs.Prelude.{◌≡◌, ◌<◌, ◌≤◌, None, IfSome, drop, length, take};
ghost use Rattle.ordup_c.specs.Calls.{Opens, RunsCall, status_of};
ghost use Rattle.ordup_c.specs.Checks.{ChecksCall, ChecksSeriesCall};
ghost use Rattle.ordup_c.specs.Records.{RecordCall};
ghost use Rattle.ordup_c.specs.declared.exports.TheConstants.{VERSION};
ghost use Rattle.ordup_c.specs.Sessions.{kept};
ghost use Rattle.ordup_c.specs.Successors.{NextCall};

use crate::checking::{tell_series_verdict, tell_verdict};
use crate::next::tell_next;
use crate::record::tell_record;
use crate::session::Session;
use crate::status::{CLOSED, DONE, MORE, NO_MEMORY, OPEN};
use crate::store::Store;
use std::alloc::Global;

/// The version of the functions that C calls.
pub const VERSION: u32 = 1;

// promise: the version is `VERSION`; `checks/clients` compares the header
/// The version of these functions.
#[unsafe(no_mangle)]
pub extern "C" fn ordup_version() -> u32
    ensures { result ≡ VERSION }
{
    VERSION
}

// promise: an opened store is before its first line; an open one stays as it was
/// Opens a store, where there is none. One that is open stays as it was. Where memory is refused there is none.
#[unsafe(no_mangle)]
pub extern "C" fn ordup_open(alloc: Global, store: &mut Store) -> u32
    ensures { Opens store.old.held.session store.new.held.session result }
{
    match store.take(alloc) {
        Some(session) => {
            store.put(session);
            OPEN
        }
        None => open(alloc, store),
    }
}

/// Opens a store.
fn open(alloc: Global, store: &mut Store) -> u32
    requires { store.old.held.session ≡ None }
    ensures { Opens store.old.held.session store.new.held.session result }
{
    match Box::new(alloc, Session::new(alloc)) {
        Ok(session) => {
            store.put(session);
            DONE
        }
        Err(_) => NO_MEMORY,
    }
}

// promise runs: a call takes whole lines, all unless memory was refused, gives the answers in order, and keeps the rest
// promise fits full rest: the buffer gets as many bytes as fit, and no others change
// promise runs: as ordup_close
/// Answers the lines of a text, and gives the next answers: as many bytes as fit into the buffer.
///
/// `taken` is how many bytes of the text were taken, which are whole lines: all of them, unless memory was refused. The rest of the
/// text may be given again. The answers that were kept come first, then those to these lines, and what does not fit is kept. The
/// status tells whether bytes of the text were left, and else whether answers are kept.
#[unsafe(no_mangle)]
pub extern "C" fn ordup_run(
    alloc: Global,
    store: &mut Store,
    text: &[u8],
    taken: &mut usize,
    answers: &mut [u8],
    written: &mut usize,
) -> u32
    ensures runs { RunsCall store.old.held.session store.new.held.session text.now taken.new (take written.new answers.new) result }
    ensures fits { written.new ≤ length answers.old }
    ensures full { IfSome store.new.held.session (λ w. 0 < length (kept w) → written.new ≡ length answers.old) }
    ensures rest { drop written.new answers.new ≡ drop written.new answers.old }
{
    *taken = 0;
    *written = 0;
    let Some(mut session) = store.take(alloc) else {
        return CLOSED;
    };
    let count = session.run(alloc, text);
    *taken = count;
    *written = session.give(answers);
    let status = status_of(&session, text.len() - count);
    store.put(session);
    status
}

// promise store record: a record is told whole or not at all, with its length; the store stays
// promise record: as ordup_close
/// Tells the record of a site: how long it is, and its text where it fits. Each refusal has a status of its own.
#[unsafe(no_mangle)]
pub extern "C" fn ordup_record(
    alloc: Global,
    store: &mut Store,
    site: &[u8],
    rows: &mut [u8],
    written: &mut usize,
) -> u32
    ensures store { store.new.held.session ≡ store.old.held.session }
    ensures record { RecordCall store.old.held.session site.now rows.old rows.new written.new result }
{
    let Some(session) = store.take(alloc) else {
        *written = 0;
        return CLOSED;
    };
    let status = tell_record(alloc, session.script.end(), site, rows, written);
    store.put(session);
    status
}

// promise store lines: the lines of the successor are told whole or not at all, and read back
// promise lines: as ordup_close
/// Tells the declarations of the successor, which begins with what this store ends with: how long they are, and their text where it
/// fits.
#[unsafe(no_mangle)]
pub extern "C" fn ordup_next(
    alloc: Global,
    store: &mut Store,
    lines: &mut [u8],
    written: &mut usize,
) -> u32
    ensures store { store.new.held.session ≡ store.old.held.session }
    ensures lines { NextCall store.old.held.session lines.old lines.new written.new result }
{
    let Some(session) = store.take(alloc) else {
        *written = 0;
        return CLOSED;
    };
    let status = tell_next(alloc, session.script.end(), lines, written);
    store.put(session);
    status
}

// promise: a record is judged as by `ordup check`, unless its text is too long
/// Checks a record, and tells the verdict: how long its line is, and the line where it fits. A bad row, a text that is longer than a
/// record may be, and refused memory each have a status of their own.
#[unsafe(no_mangle)]
pub extern "C" fn ordup_check(
    alloc: Global,
    rows: &[u8],
    verdict: &mut [u8],
    written: &mut usize,
) -> u32
    ensures { ChecksCall rows.now verdict.old verdict.new written.new result }
{
    tell_verdict(alloc, rows, verdict, written)
}

// promise: a text of records is judged as by `ordup check --series`
/// Audits records of one site, one after another, and tells the verdict: how long its line is, and the line where it fits. A bad row
/// and refused memory each have a status of their own.
#[unsafe(no_mangle)]
pub extern "C" fn ordup_check_series(
    alloc: Global,
    rows: &[u8],
    verdict: &mut [u8],
    written: &mut usize,
) -> u32
    ensures { ChecksSeriesCall rows.now verdict.old verdict.new written.new result }
{
    tell_series_verdict(alloc, rows, verdict, written)
}

/// Whether bytes of a text are left, for want of memory, and else whether there are more answers.
fn status_of(session: &Session, left: usize) -> u32
    ensures { result ≡ status_of session.now left }
{
    if left > 0 {
        NO_MEMORY
    } else if session.kept().is_empty() {
        DONE
    } else {
        MORE
    }
}

// promise: a closed store is none, and each call says so
/// Closes a store, if there is one. Where there is none, each call but `ordup_open` says so and does nothing.
#[unsafe(no_mangle)]
pub extern "C" fn ordup_close(alloc: Global, store: &mut Store)
    ensures { store.new.held.session ≡ None }
{
    if let Some(session) = store.take(alloc) {
        drop(session);
    }
}

#[cfg(test)]
mod tests {
    use super::{
        ordup_check, ordup_close, ordup_next, ordup_open, ordup_record, ordup_run, ordup_version,
    };
    use crate::status::{CLOSED, DONE, MALFORMED, MORE, NOT_STARTED, NOT_YET, OPEN};
    use crate::store::Store;
    use std::rt::HostRuntime;

    // shows: ordup_open; ordup_run runs; ordup_close; ordup_version
    #[test]
    fn a_store_is_opened_and_closed(rt: HostRuntime) {
        let alloc = rt.alloc();
        let mut store = Store::none(alloc);
        let mut taken = 7;
        let mut written = 7;
        let closed = ordup_run(
            alloc,
            &mut store,
            b"start",
            &mut taken,
            &mut [],
            &mut written,
        );
        assert_eq!(rt; closed, CLOSED);
        assert_eq!(rt; ordup_open(alloc, &mut store), DONE);
        assert_eq!(rt; ordup_open(alloc, &mut store), OPEN);
        assert_eq!(rt; ordup_version(), 1);
        ordup_close(alloc, &mut store);
    }

    // shows: ordup_run runs; ordup_run fits rest
    #[test]
    fn answers_are_given_in_parts(rt: HostRuntime) {
        let alloc = rt.alloc();
        let mut store = Store::none(alloc);
        let mut out = [0; 8];
        let mut taken = 0;
        let mut written = 0;
        let _status = ordup_open(alloc, &mut store);
        let text = b"object x 1";
        let first = ordup_run(alloc, &mut store, text, &mut taken, &mut out, &mut written);
        assert_eq!(rt; first, MORE);
        assert_eq!(rt; taken, 10);
        assert_eq!(rt; out[..written], b"ok objec"[..]);
        let next = ordup_run(alloc, &mut store, b"", &mut taken, &mut out, &mut written);
        assert_eq!(rt; next, DONE);
        assert_eq!(rt; out[..written], b"t x\n"[..]);
        ordup_close(alloc, &mut store);
    }

    // shows: ordup_next store lines
    #[test]
    fn a_successor_is_declared(rt: HostRuntime) {
        let alloc = rt.alloc();
        let mut store = Store::none(alloc);
        let mut out = [0; 64];
        let mut taken = 0;
        let mut written = 0;
        let _status = ordup_open(alloc, &mut store);
        let early = ordup_next(alloc, &mut store, &mut out, &mut written);
        assert_eq!(rt; early, NOT_STARTED);
        let text = b"object x 1\nsite a 1\nstart\npropose add:x:2";
        let _answers = ordup_run(alloc, &mut store, text, &mut taken, &mut out, &mut written);
        let pending = ordup_next(alloc, &mut store, &mut out, &mut written);
        assert_eq!(rt; pending, NOT_YET);
        let _settled = ordup_run(
            alloc,
            &mut store,
            b"settle",
            &mut taken,
            &mut out,
            &mut written,
        );
        let next = ordup_next(alloc, &mut store, &mut out, &mut written);
        assert_eq!(rt; next, DONE);
        assert_eq!(rt; out[..written], b"object x 3\nsite a 1\nstart\n"[..]);
        ordup_close(alloc, &mut store);
    }

    // shows: ordup_record store record; ordup_check
    #[test]
    fn a_record_is_told_and_checked(rt: HostRuntime) {
        let alloc = rt.alloc();
        let mut store = Store::none(alloc);
        let mut out = [0; 64];
        let mut line = [0; 64];
        let mut taken = 0;
        let mut written = 0;
        let _status = ordup_open(alloc, &mut store);
        let text = b"object x 1\nsite a 1\nstart";
        let _answers = ordup_run(alloc, &mut store, text, &mut taken, &mut out, &mut written);
        let told = ordup_record(alloc, &mut store, b"a", &mut out, &mut written);
        assert_eq!(rt; told, DONE);
        assert_eq!(rt; out[..8], b"ordup,1,"[..]);
        let judged = ordup_check(alloc, &out[..written], &mut line, &mut written);
        assert_eq!(rt; judged, DONE);
        assert_eq!(rt; line[..written], b"yes 0\n"[..]);
        let malformed = ordup_check(alloc, b"ordup,1\n", &mut line, &mut written);
        assert_eq!(rt; malformed, MALFORMED);
        assert_eq!(rt; line[..written], b"malformed 1\n"[..]);
        ordup_close(alloc, &mut store);
    }
}
