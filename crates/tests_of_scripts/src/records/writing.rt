//! Records to a writer that fails, and the version in which a record is written.
ghost use Rattle.std.specs.Prelude.{Some};

use crate::records::fixtures::{RECORD, record_in};
use ordup_check::Record;
use ordup_rows::{RecordWriteFault, write_record};
use std::alloc::Global;
use std::io::{self, ErrorKind, Write};
use test_fixtures::expect;

/// Takes this count of bytes, and then fails or takes nothing. It cannot be flushed.
#[derive(Drop)]
struct ShortWriter {
    taken: Vec<u8>,
    spare: usize,
    takes_nothing: bool,
}

impl Write for ShortWriter {
    ghost contents = { λ w. Some w.taken.items };

    fn write(&mut self, bytes: &[u8]) -> io::Result<usize> {
        if self.spare == 0 && !self.takes_nothing {
            return Err(io::Error::from(ErrorKind::Other));
        }
        let count = bytes.len().min(self.spare);
        self.taken.extend_from_slice(&bytes[..count])?;
        self.spare -= count;
        Ok(count)
    }

    fn flush(&mut self) -> io::Result<()> {
        Err(io::Error::from(ErrorKind::Other))
    }
}

/// Whether writing a record to a writer that takes this many bytes has this outcome, and the writer has got these bytes.
fn is_written(
    alloc: Global,
    audited: &Record,
    spare: usize,
    takes_nothing: bool,
    wanted: (Result<(), RecordWriteFault>, &[u8]),
) -> bool {
    let mut output = ShortWriter {
        taken: Vec::new(alloc),
        spare,
        takes_nothing,
    };
    let written = write_record(alloc, audited, &mut output);
    (written, output.taken.as_slice()) == wanted
}

/// Writes a record to a writer that fails after each count of bytes.
// shows: write_record written front; streams
#[test]
fn a_writer_that_fails_has_got_a_front_of_the_record(rt: HostRuntime) {
    let Ok(audited) = record_in(rt.alloc(), RECORD) else {
        panic!(rt; "the record is not read")
    };
    let text = RECORD.as_bytes();
    for takes_nothing in [false, true] {
        for spare in 0..text.len() {
            let wanted = (Err(RecordWriteFault::Write), &text[..spare]);
            let is_front = is_written(rt.alloc(), &audited, spare, takes_nothing, wanted);
            expect!(&rt; is_front, (spare, takes_nothing));
        }
        let is_whole = is_written(
            rt.alloc(),
            &audited,
            text.len(),
            takes_nothing,
            (Ok(()), text),
        );
        expect!(&rt; is_whole, takes_nothing);
    }
    drop(audited);
}

/// The same record as `RECORD`, in the second version.
const RECORD_IN_THE_SECOND_VERSION: &str = "\
ordup,2,a,2
object,1,x,0
object,2,y,10
limit,1,object:x,5@1
change,1,1,add:x:5
change,2,1,add:x:1
round,1,2,-
window,1,0,2
";

/// A record whose limits begin at places 1 and 2.
const PLACED: &str = "\
ordup,2,a,2
object,1,x,0
limit,1,object:x,5@1
limit,2,all,9@2
change,1,1,add:x:5
change,2,1,add:x:1
round,1,2,-
window,1,0,2
";

/// A record whose only limit begins at place 3.
const LATER: &str = "\
ordup,2,a,3
object,1,x,0
limit,1,count,2@3
change,1,1,add:x:1
change,2,1,add:x:1
change,3,1,add:x:1
round,1,3,-
window,1,0,3
";

/// Whether the record in a text is written as another text.
fn is_written_as(alloc: Global, text: &str, written: &str) -> bool {
    let Ok(audited) = record_in(alloc, text) else {
        return false;
    };
    let wanted = (Ok(()), written.as_bytes());
    let is_whole = is_written(alloc, &audited, written.len(), false, wanted);
    drop(audited);
    is_whole
}

/// Writes records of both versions.
// shows: write_record version_for; Version::of
#[test]
fn a_record_is_written_in_the_first_version_where_that_can_tell_it(rt: HostRuntime) {
    for (text, written) in [
        (RECORD, RECORD),
        (RECORD_IN_THE_SECOND_VERSION, RECORD),
        ("ordup,2,a,0\nobject,1,x,0\n", "ordup,1,a,0\nobject,1,x,0\n"),
        (PLACED, PLACED),
        (LATER, LATER),
    ] {
        expect!(&rt; is_written_as(rt.alloc(), text, written), text);
    }
}
