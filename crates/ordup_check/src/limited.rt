//! A reader with a limit.
ghost use Rattle.std.specs.Prelude.{◌≡◌, ◌∷◌, [], false, if◌then◌else◌, Some, option_map};
ghost use Rattle.ordup_check.specs.Limits.{cut_at, never};

use std::io::{self, ErrorKind, Read};

/// A reader that passes on the bytes of another, and fails where there are more than a limit.
#[derive(Drop)]
pub struct Limited<R> {
    input: R,
    /// How many bytes may still come.
    left: u64,
    /// Whether one more came than the limit.
    is_over: bool,
}

impl<R: Read> Limited<R> {
    /// A reader of at most `limit` bytes.
    pub fn new(input: R, limit: u64) -> Self
        ensures input { result.input ≡ input }
        ensures left { result.left ≡ limit }
        ensures within { result.is_over ≡ false }
    {
        Limited {
            input,
            left: limit,
            is_over: false,
        }
    }
}

impl<R: Read> Read for Limited<R> {
    ghost remaining = { λ r. if r.is_over then Some (never ∷ []) else option_map (cut_at r.left) (R.remaining r.input) };

    fn read(&mut self, buffer: &mut [u8]) -> io::Result<usize> {
        if self.is_over {
            return Err(io::Error::from(ErrorKind::Other));
        }
        if self.left == 0 {
            let mut byte = [0];
            if self.input.read(&mut byte)? == 0 {
                return Ok(0);
            }
            self.is_over = true;
            return Err(io::Error::from(ErrorKind::Other));
        }
        let most = (buffer.len() as u64).min(self.left) as usize;
        let count = self.input.read(&mut buffer[..most])?;
        self.left -= count as u64;
        Ok(count)
    }
}
