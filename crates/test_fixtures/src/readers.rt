//! A reader that gives a little at a time, and one that has no end.
use std::io::{self, ErrorKind, Read};

/// Gives a few bytes a call, and fails after a count of bytes.
#[derive(Drop)]
pub struct PieceReader<'a> {
    left: &'a [u8],
    at_once: usize,
    before_failure: usize,
    failure: ErrorKind,
}

impl<'a> PieceReader<'a> {
    pub fn new(left: &'a [u8], at_once: usize, before_failure: usize) -> Self {
        PieceReader {
            left,
            at_once,
            before_failure,
            failure: ErrorKind::Other,
        }
    }

    /// Gives all at once, and fails by this kind of error after a count of bytes.
    pub fn failing(left: &'a [u8], before_failure: usize, failure: ErrorKind) -> Self {
        PieceReader {
            left,
            at_once: usize::MAX,
            before_failure,
            failure,
        }
    }
}

impl Read for PieceReader<'_> {
    fn read(&mut self, buffer: &mut [u8]) -> io::Result<usize> {
        if self.before_failure == 0 {
            return Err(io::Error::from(self.failure));
        }
        let count = buffer
            .len()
            .min(self.at_once)
            .min(self.left.len())
            .min(self.before_failure);
        let (given, left) = self.left.split_at(count);
        buffer[..count].copy_from_slice(given);
        self.left = left;
        self.before_failure -= count;
        Ok(count)
    }
}

/// Gives one byte for ever.
#[derive(Drop)]
pub struct EndlessReader {
    pub byte: u8,
}

impl Read for EndlessReader {
    fn read(&mut self, buffer: &mut [u8]) -> io::Result<usize> {
        buffer.fill(self.byte);
        Ok(buffer.len())
    }
}
