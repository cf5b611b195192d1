//! Texts that are read and written again, and texts that are no entries.
use ordup_entries::{Entry, Header, ReadError, Step, Text, read_entry, write_entry};
use ordup_grammar::Word;
use ordup_text::TextBuffer;
use std::alloc::Global;
use std::process::Abort;
use std::test::*;

/// Has a step of each kind.
pub(crate) const WHOLE: &str = "\
ordup-node 1 epoch 2 ordup 0.2.0 writer p1-17
begin 100 2 00ff 0.2.0 1000 10 00aa 60 0
declare object tea 5
known ann 3 ab 1 17 ok acked 7 epoch 1
tell south 2
ask ann 4 add:tea:-1 set:till:3
settle 2
wish 100 2 00ff 0.2.0 1000 10 00aa 60 0
want start
leave south
gone south 0
relimit south object tea 20 ok 7
relimit south all 0 refused 25 LagOver
elapsed 5
answer ann 4 cd refused 9 OutOfRange
";

/// Texts of entries.
const ENTRIES: [&str; 10] = [
    WHOLE,
    // Scripts that began before clients were remembered for seconds have neither these nor ages.
    "ordup-node 1 epoch 2 ordup 1 writer p\nbegin 100 2 00ff 0.2.0 1000 10 00aa\nknown ann 3 ab 1 ok acked 7 epoch 1\n",
    "ordup-node 1 epoch 1 ordup 0.2.0 writer p1-17\n",
    "ordup-node 1 epoch 1 ordup 1 writer p1\nbegin 100 2 - 1 100 2 -\ndeclare object tea 100\ndeclare site north 2\ndeclare site south 2\ndeclare limit north count 1\ndeclare start\n",
    "ordup-node 1 epoch 1 ordup 1 writer p1\nask ann 1 add:tea:-5\nsettle 1\nanswer ann 1 - ok acked 1 epoch 1\n",
    "ordup-node 1 epoch 1 ordup 1 writer p1\ntell north 1\nelapsed 1\n",
    "ordup-node 1 epoch 1 ordup 1 writer p1\nask ann 1 add:tea:-5\nwish 100 2 - 1 100 2 -\nsettle 1\nanswer ann 1 - ok acked 1 epoch 1\n",
    "ordup-node 1 epoch 2 ordup 1 writer p1\nknown ann 1 - 1 ok acked 1 epoch 1\nknown bob 2 - 1 9 refused 9 OutOfRange\n",
    "ordup-node 1 epoch 1 ordup 1 writer p1\nrelimit north count 0 refused 25 LagOver\nrelimit north group g 9223372036854775807 ok 1000001\nask ann 1 \n",
    "ordup-node 1 epoch 999999999999999999 ordup 1 writer p\ntell a 999999\ngone b 0\nsettle 1\n",
];

// shows: write_entry text; read_entry found
#[test]
fn entries_are_written_as_they_were_read(rt: HostRuntime) -> Result<(), Fail> {
    for text in ENTRIES {
        let entry = match read_entry(rt.alloc(), text.as_bytes()) {
            Ok(entry) => entry,
            Err(error) => panic!(&rt; "{text:?} is refused: {error:?}"),
        };
        let mut out = TextBuffer::new(rt.alloc());
        write_entry(&mut out, &entry)?;
        assert_eq!(&rt; out.as_slice(), text.as_bytes(), "{text:?}");
    }
    Ok(())
}

/// What stands behind a first line that is one, and the line that is told.
const NO_STEPS: [(&str, u64); 42] = [
    ("tell south 2", 2),
    ("\n", 2),
    ("told south 2\n", 2),
    ("tell south\n", 2),
    ("tell south 0\n", 2),
    ("tell South 1\n", 2),
    ("tell south 1 \n", 2),
    ("tell  south 1\n", 2),
    (" tell south 1\n", 2),
    ("settle 1\n\n", 3),
    ("settle 1\nsettle 1", 3),
    ("settle 1000001\n", 2),
    ("settle -1\n", 2),
    ("settle +1\n", 2),
    ("settle 01\n", 2),
    ("settle 999999\nsettle 1\ngone a 0\ntell a 1\n", 5),
    ("ask ann 0 add:tea:1\n", 2),
    ("ask Ann 1 add:tea:1\n", 2),
    ("ask ann 1000000000000000000 x\n", 2),
    ("ask ann 1\n", 2),
    ("ask ann 1 \u{e9}\n", 2),
    ("declare start\n", 2),
    ("want start\n", 2),
    ("settle 1\nbegin 1 1 a b 1 1 a\n", 3),
    ("begin 1 1 a b\n", 2),
    ("begin 1 1 a b 1 0 a\n", 2),
    ("begin 1 1 a b 1 1 a 0 0\n", 2),
    ("begin 1 1 a b 1 1 a 5\n", 2),
    ("begin 1 1 a b 1 1 a 5 1000001\n", 2),
    ("elapsed 0\n", 2),
    ("known ann 3 ab 1\n", 2),
    ("known ann 3 ab 1 0 ok acked 1 epoch 1\n", 2),
    ("answer ann 1 ab ok acked 1 epoch 1\nsettle 1\n", 3),
    ("answer ann 1 ab ok acked 01 epoch 1\n", 2),
    ("answer ann 1 ab refused 9\n", 2),
    ("answer ann 1 ab refused 9 OutOfRange \n", 2),
    ("leave south north\n", 2),
    ("relimit south count 3\n", 2),
    ("relimit south count none ok 1\n", 2),
    ("relimit south object Tea 3 ok 1\n", 2),
    ("relimit south count 9223372036854775808 ok 1\n", 2),
    ("relimit south count 3 ok 1000002\n", 2),
];

/// First lines that are none.
const NO_FIRST_LINES: [&str; 10] = [
    "",
    "\n",
    "ordup-node",
    "# epoch 1\n",
    "ordup-node 1 epoch 1 ordup 1 writer p",
    "ordup-node 1 epoch 0 ordup 1 writer p\n",
    "ordup-node 1 epoch 01 ordup 1 writer p\n",
    "ordup-node 1 epoch 1 ordup  writer p\n",
    "ordup-node 1 epoch 1 ordup 1 writer p q\n",
    "ordup-node 2 epoch 1 ordup 1 writer p\n",
];

/// Expects that a text is refused for a line.
fn expect_line(rt: &impl Abort, heap: Global, text: &[u8], line: u64) {
    match read_entry(heap, text) {
        Ok(_) => panic!(rt; "{text:?} is read"),
        Err(error) => assert_eq!(rt; error, ReadError::Line(line), "{text:?}"),
    }
}

// shows: read_entry exact
#[test]
fn the_first_line_that_is_wrong_is_told(rt: HostRuntime) -> Result<(), Fail> {
    for text in NO_FIRST_LINES {
        expect_line(&rt, rt.alloc(), text.as_bytes(), 1);
    }
    for (lines, line) in NO_STEPS {
        let mut text = TextBuffer::new(rt.alloc());
        text.push(b"ordup-node 1 epoch 1 ordup 1 writer p\n")?;
        text.push(lines.as_bytes())?;
        expect_line(&rt, rt.alloc(), text.as_slice(), line);
    }
    Ok(())
}

// shows: write_entry text
#[test]
fn an_entry_is_written_of_its_parts(rt: HostRuntime) -> Result<(), Fail> {
    let mut steps = Vec::new(rt.alloc());
    steps.push(Step::Tell {
        site: Word::new(b"south"),
        count: 2,
    })?;
    steps.push(Step::Ask {
        client: Word::new(b"ann"),
        number: 7,
        changes: Text::new(b"add:tea:-5"),
    })?;
    let header = Header {
        epoch: 1,
        version: Word::new(b"0.2.0"),
        writer: Word::new(b"p1-17"),
    };
    let mut out = TextBuffer::new(rt.alloc());
    write_entry(&mut out, &Entry::new(header, steps))?;
    assert_eq!(&rt;
        out.as_slice(),
        b"ordup-node 1 epoch 1 ordup 0.2.0 writer p1-17\ntell south 2\nask ann 7 add:tea:-5\n".as_slice()
    );
    Ok(())
}
