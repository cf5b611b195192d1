//! A reader that ends in a row that is too long for one of a record.
ghost use Rattle.std.specs.Prelude.{◌≡◌, ◌≤◌, ◌++◌, ℕ, List, [], Some, false, if◌then◌else◌, drop, length, option_map, take};
ghost use Rattle.ordup_check.specs.ShortRows.{ends_at_long_row, left_after, most_row_bytes};

use memchr::{memchr, memrchr};
use std::io::{self, Read};

/// The most bytes of a row. The longest row of a record has a third of them, and quotes make a row less than three times as long.
const MOST_ROW_BYTES: u64 = 300;

/// The state of a reading of rows: what the next byte of the text follows.
#[derive(Clone, Copy)]
pub enum RowState {
    /// Nothing: a byte order mark may stand here.
    Text,
    /// The first byte of a mark.
    MarkOfOne,
    /// The first two bytes of a mark.
    MarkOfTwo,
    /// The end of a row, or nothing but ends of rows.
    Row,
    /// The end of a column; or a quote that ends quoted bytes, or stands among them if another one follows.
    Edge,
    /// A byte of a column outside of quotes.
    Plain,
    /// A quote, and bytes within quotes.
    Quoted,
}

impl RowState {
    ghost use Rattle.ordup_check.specs.ShortRows.{at_edge, in_column, is_row, state_after};

    /// The state after a byte, as csv reads it.
    fn after(self, byte: u8) -> RowState
        ensures { result ≡ state_after self byte }
    {
        match self {
            RowState::Text => {
                if byte == 0xEF {
                    RowState::MarkOfOne
                } else {
                    RowState::at_edge(byte)
                }
            }
            RowState::MarkOfOne => {
                if byte == 0xBB {
                    RowState::MarkOfTwo
                } else {
                    RowState::in_column(byte)
                }
            }
            RowState::MarkOfTwo => {
                if byte == 0xBF {
                    RowState::Row
                } else {
                    RowState::in_column(byte)
                }
            }
            RowState::Row | RowState::Edge => RowState::at_edge(byte),
            RowState::Plain => RowState::in_column(byte),
            RowState::Quoted => {
                if byte == b'"' {
                    RowState::Edge
                } else {
                    RowState::Quoted
                }
            }
        }
    }

    /// The state after a byte that is not quoted, where a quote begins quoted bytes.
    fn at_edge(byte: u8) -> RowState
        ensures { result ≡ at_edge byte }
    {
        if byte == b'"' {
            RowState::Quoted
        } else {
            RowState::in_column(byte)
        }
    }

    /// The state after a byte that is not quoted.
    fn in_column(byte: u8) -> RowState
        ensures { result ≡ in_column byte }
    {
        if byte == b',' {
            RowState::Edge
        } else if byte == b'\r' || byte == b'\n' {
            RowState::Row
        } else {
            RowState::Plain
        }
    }

    /// Whether no byte of a row was read in this state.
    fn is_row(self) -> bool
        ensures { result ≡ is_row self }
    {
        match self {
            RowState::Row => true,
            _ => false,
        }
    }
}

/// A reader that passes on the bytes of another, and ends with the first byte that is too many of a row. So a row takes little
/// memory.
#[derive(Drop)]
pub struct ShortRows<R> {
    input: R,
    state: RowState,
    /// How many bytes more the row may have.
    left: u64,
    is_ended: bool,
}

impl<R: Read> ShortRows<R> {
    /// The rows of a reader at the start of its text.
    pub fn new(input: R) -> Self
        ensures input { result.input ≡ input }
        ensures state { result.state ≡ RowState.Text }
        ensures left { result.left ≡ most_row_bytes }
        ensures open { result.is_ended ≡ false }
    {
        ShortRows {
            input,
            state: RowState::Text,
            left: MOST_ROW_BYTES,
            is_ended: false,
        }
    }
}

/// How far bytes were gone over.
#[derive(Clone, Copy)]
struct Passed {
    /// How many of them are passed on.
    count: usize,
    state: RowState,
    left: u64,
    /// Whether the last of these is too many.
    is_ended: bool,
}

/// Goes over bytes, up to the first that is too many of a row.
fn go_over(start: RowState, spare: u64, bytes: &[u8]) -> Passed
    ensures few { result.count ≤ length bytes.now }
    ensures whole { result.is_ended ≡ false → result.count ≡ length bytes.now }
    ensures text { (more : List ℕ) → ends_at_long_row start spare (bytes.now ++ more)
        ≡ take result.count bytes.now ++ (if result.is_ended then [] else ends_at_long_row result.state result.left more) }
{
    let mut state = start;
    let mut left = spare;
    let mut count = 0;
    while count < bytes.len() {
        let rows = whole_rows(state, left, &bytes[count..]);
        if rows > 0 {
            count += rows;
            continue;
        }
        state = state.after(bytes[count]);
        count += 1;
        let Some(next) = left_after(state, left) else {
            return Passed {
                count,
                state,
                left,
                is_ended: true,
            };
        };
        left = next;
    }
    Passed {
        count,
        state,
        left,
        is_ended: false,
    }
}

/// How many of the bytes are whole rows, which are passed on together: at the start of a row, those that end among as many bytes as
/// a row may have. It is 0 where one of these bytes is a quote.
// So most bytes are not looked at one by one.
fn whole_rows(state: RowState, left: u64, bytes: &[u8]) -> usize
    ensures few { result ≤ length bytes.now }
    ensures text { (more : List ℕ) → ends_at_long_row state left (bytes.now ++ more)
        ≡ take result bytes.now ++ ends_at_long_row state left (drop result bytes.now ++ more) }
{
    if !state.is_row() || left != MOST_ROW_BYTES {
        return 0;
    }
    let front = &bytes[..bytes.len().min(MOST_ROW_BYTES as usize)];
    let Some(end) = memrchr(b'\n', front) else {
        return 0;
    };
    if memchr(b'"', &front[..end + 1]).is_some() {
        return 0;
    }
    end + 1
}

/// How many bytes more the row may have after one that leads to a state, unless that one is too many.
fn left_after(state: RowState, left: u64) -> Option<u64>
    ensures { result ≡ left_after state left }
{
    if state.is_row() {
        return Some(MOST_ROW_BYTES);
    }
    if left == 0 {
        return None;
    }
    Some(left - 1)
}

impl<R: Read> Read for ShortRows<R> {
    ghost remaining = { λ r. if r.is_ended then Some [] else option_map (ends_at_long_row r.state r.left) (R.remaining r.input) };

    fn read(&mut self, buffer: &mut [u8]) -> io::Result<usize> {
        if self.is_ended {
            return Ok(0);
        }
        let count = self.input.read(buffer)?;
        let passed = go_over(self.state, self.left, &buffer[..count]);
        self.state = passed.state;
        self.left = passed.left;
        self.is_ended = passed.is_ended;
        Ok(passed.count)
    }
}
