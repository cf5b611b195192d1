//! Text that grows at its end.
//!
//! The buffer already has bytes behind its text, and a part that is added is copied over them. The compiler knows the length of
//! most parts, and copies such a part by a move or two.
ghost use Rattle.std.specs.Prelude.{◌≡◌, ◌+◌, ◌≤◌, ◌++◌, [], OnOk, length, take};
ghost use Rattle.std.specs.Fmt.{decimal, signed_decimal};
ghost use Rattle.ordup_text.specs.declared.text_buffer.TheConstants.{MOST_DIGITS};

use itoa::write_digits;
use ordup_objects::copy_short;
use std::alloc::{AllocError, Allocator, Global};
use std::marker::Model;

/// The most digits of a number.
pub const MOST_DIGITS: usize = 20;

/// A text, and the spare capacity behind it.
#[derive(Drop)]
pub struct TextBuffer<A: Allocator + Copy = Global> {
    /// The text, and then the spare capacity.
    bytes: Vec<u8, A>,
    len: usize,
}

impl<A: Allocator + Copy> Model for TextBuffer<A> {
    ghost use Rattle.ordup_text.specs.TextBuffers.{BufferedText};
    ghost use Rattle.ordup_text.specs.TextBufferInside.{buffered, IsTextBuffer};

    ghost Value = { BufferedText };

    ghost view = { buffered };

    ghost invariant = { IsTextBuffer };
}

impl<A: Allocator + Copy> TextBuffer<A> {
    // promise: a buffer has just the text that was added to it
    /// A buffer without text.
    pub fn new(alloc: A) -> Self
        ensures { result.text ≡ [] }
    {
        TextBuffer {
            bytes: Vec::new(alloc),
            len: 0,
        }
    }

    /// The allocator that the buffer takes its memory from.
    pub fn allocator(&self) -> &A {
        self.bytes.allocator()
    }

    // promise: as TextBuffer::new
    /// How many bytes the text has.
    pub fn len(&self) -> usize
        ensures { result ≡ length self.now.text }
    {
        self.as_slice().len()
    }

    // promise: as TextBuffer::new
    /// The text.
    pub fn as_slice(&self) -> &[u8]
        ensures { result.now ≡ self.now.text }
    {
        &self.bytes[..self.len]
    }

    // promise: as TextBuffer::new
    /// Takes the text away. Its bytes become spare capacity.
    pub fn clear(&mut self)
        ensures { self.new.text ≡ [] }
    {
        self.len = 0;
    }

    // promise: as TextBuffer::new
    /// Reserves at least `spare` bytes behind the text.
    #[inline(always)]
    pub fn reserve(&mut self, spare: usize) -> Result<(), AllocError>
        ensures text { self.new.text ≡ self.old.text }
        ensures spare { OnOk result (spare ≤ self.new.spare) }
        // No list has more bytes.
        ensures most { OnOk result (self.new.spare ≤ 9223372036854775807) }
    {
        if spare <= self.bytes.len() - self.len {
            return Ok(());
        }
        self.grow(spare)
    }

    /// Reserves `spare` bytes, or as many as the text has where that is more.
    #[inline(never)]
    fn grow(&mut self, spare: usize) -> Result<(), AllocError>
        ensures text { self.new.text ≡ self.old.text }
        ensures spare { OnOk result (spare ≤ self.new.spare) }
        ensures most { OnOk result (self.new.spare ≤ 9223372036854775807) }
    {
        let more = spare.max(self.len);
        self.bytes.resize(self.len.saturating_add(more), 0)?;
        // For the proof: a list has few bytes.
        let _len = self.bytes.len();
        Ok(())
    }

    // promise: as TextBuffer::new
    /// Adds a text. It must fit into the spare capacity.
    #[inline(always)]
    pub fn put(&mut self, text: &[u8])
        requires { length text.now ≤ self.old.spare }
        ensures text { self.new.text ≡ self.old.text ++ text.now }
        ensures spare { self.new.spare + length text.now ≡ self.old.spare }
    {
        let end = self.len + text.len();
        self.bytes[self.len..end].copy_from_slice(text);
        self.len = end;
    }

    // promise: as TextBuffer::new
    /// Adds a text whose length the compiler knows. It must fit into the spare capacity.
    // Its bytes are one value, which is stored as it is: of a slice the compiler would ask first whether it lies in the buffer.
    #[inline(always)]
    pub fn put_array<const N: usize>(&mut self, text: &[u8; N])
        requires { N ≤ self.old.spare }
        ensures text { self.new.text ≡ self.old.text ++ text.now }
        ensures spare { self.new.spare + N ≡ self.old.spare }
    {
        let end = self.len + N;
        store(&mut self.bytes[self.len..end], text);
        self.len = end;
    }

    // promise: as TextBuffer::new
    /// Adds the first `len` of an array. All of its bytes must fit into the spare capacity.
    // All are stored, so that nothing depends on how many of them count.
    #[inline(always)]
    pub fn put_prefix<const N: usize>(&mut self, text: &[u8; N], len: usize)
        requires { (len ≤ N) × (N ≤ self.old.spare) }
        ensures text { self.new.text ≡ self.old.text ++ take len text.now }
        ensures spare { self.new.spare + len ≡ self.old.spare }
    {
        self.put_array(text);
        self.len -= N - len;
    }

    /// Adds a name, or another text that is short as a rule. It must fit into the spare capacity.
    #[inline(always)]
    pub fn put_name(&mut self, name: &[u8])
        requires { length name.now ≤ self.old.spare }
        ensures text { self.new.text ≡ self.old.text ++ name.now }
        ensures spare { self.new.spare + length name.now ≡ self.old.spare }
    {
        let end = self.len + name.len();
        copy_short(&mut self.bytes[self.len..end], name);
        self.len = end;
    }

    // promise: as TextBuffer::new
    /// Adds a number in digits. The most digits of a number must fit into the spare capacity.
    #[inline(always)]
    pub fn put_number(&mut self, number: u64)
        requires { MOST_DIGITS ≤ self.old.spare }
        ensures text { self.new.text ≡ self.old.text ++ decimal number }
        ensures spare { self.old.spare ≤ self.new.spare + MOST_DIGITS }
    {
        let end = self.len + digit_count(number);
        write_digits(number, &mut self.bytes, end);
        self.len = end;
    }

    // promise: as TextBuffer::new
    /// Adds a value in digits, with a minus before one below 0. A minus and the most digits of a number must fit into the spare
    /// capacity.
    #[inline(always)]
    pub fn put_value(&mut self, value: i64)
        requires { MOST_DIGITS + 1 ≤ self.old.spare }
        ensures text { self.new.text ≡ self.old.text ++ signed_decimal value }
        ensures spare { self.old.spare ≤ self.new.spare + MOST_DIGITS + 1 }
    {
        if value < 0 {
            self.put(b"-");
        }
        self.put_number(value.unsigned_abs());
    }

    // promise: as TextBuffer::new
    /// Adds a text.
    #[inline(always)]
    pub fn push(&mut self, text: &[u8]) -> Result<(), AllocError>
        ensures { OnOk result (self.new.text ≡ self.old.text ++ text.now) }
    {
        self.reserve(text.len())?;
        self.put(text);
        Ok(())
    }

    // promise: as TextBuffer::new
    /// Adds a number in digits.
    #[inline(always)]
    pub fn push_number(&mut self, number: u64) -> Result<(), AllocError>
        ensures { OnOk result (self.new.text ≡ self.old.text ++ decimal number) }
    {
        self.reserve(MOST_DIGITS)?;
        self.put_number(number);
        Ok(())
    }

    // promise: as TextBuffer::new
    /// Adds a value in digits, with a minus before one below 0.
    #[inline(always)]
    pub fn push_value(&mut self, value: i64) -> Result<(), AllocError>
        ensures { OnOk result (self.new.text ≡ self.old.text ++ signed_decimal value) }
    {
        self.reserve(MOST_DIGITS + 1)?;
        self.put_value(value);
        Ok(())
    }
}

/// Stores an array where there are as many bytes.
#[inline(always)]
fn store<const N: usize>(to: &mut [u8], text: &[u8; N])
    requires { length to.old ≡ N }
    ensures { to.new ≡ text.now }
{
    *to.first_chunk_mut::<N>().unwrap() = *text;
}

/// How many digits a number has.
#[inline(always)]
fn digit_count(number: u64) -> usize
    ensures { result ≡ length (decimal number) }
{
    match number.checked_ilog10() {
        Some(power) => power as usize + 1,
        None => 1,
    }
}
