//! Records that are read under a limit of bytes.
use crate::records::fixtures::RECORD;
use ordup_check::{RecordReadFault, Verdict, check, read_record_within};
use std::alloc::{AllocError, Global};
use std::test::Fail;
use test_fixtures::expect_eq;
use test_fixtures::readers::PieceReader;

/// The verdict on the record in a text of at most this count of bytes, which comes in short reads, or why it is no record.
fn verdict_within(
    alloc: Global,
    text: &str,
    at_once: usize,
    limit: u64,
) -> Result<String, AllocError> {
    let mut input = PieceReader::new(text.as_bytes(), at_once, usize::MAX);
    match read_record_within(alloc, &mut input, limit) {
        Ok(audited) => {
            let verdict = check(&audited);
            // Dropped by a call, which is proved once for all tests: docs/DECISIONS.md, Tests.
            drop(audited);
            match verdict {
                Verdict::Fewest(rounds) => format!(in alloc; "yes {rounds}"),
                Verdict::No { row, reason } => format!(in alloc; "no {row} {}", reason.name()),
            }
        }
        Err(RecordReadFault::Malformed { row }) => format!(in alloc; "malformed {row}"),
        Err(RecordReadFault::Read) => String::from_str(alloc, "read fault"),
        Err(RecordReadFault::NoMemory) => String::from_str(alloc, "no memory"),
    }
}

/// Texts, their limits, and what comes of each.
///
/// A limit after 'ordup,1,so' ends within a row, which goes on as a right row. Three columns that end within the limit do not.
const LIMITED: [(&str, u64, &str); 8] = [
    (RECORD, 121, "yes 1"),
    (RECORD, 122, "yes 1"),
    (RECORD, 120, "read fault"),
    (RECORD, 10, "read fault"),
    (RECORD, 0, "read fault"),
    ("ordup,1,south\nand more", 14, "malformed 1"),
    ("ordup,1,south\nand more", 13, "read fault"),
    ("ordup,1,south", 13, "malformed 1"),
];

/// Reads records under limits of bytes, whole and in pieces.
// shows: read_record_within malformed; read_record_within limited
#[test]
fn a_record_of_more_bytes_than_the_limit_is_not_read(rt: HostRuntime) -> Result<(), Fail> {
    for at_once in [usize::MAX, 1, 120, 121] {
        for &(text, limit, wanted) in &LIMITED {
            let verdict = verdict_within(rt.alloc(), text, at_once, limit)?;
            expect_eq!(&rt; verdict.as_str(), wanted, (text, limit, at_once));
        }
    }
    Ok(())
}
