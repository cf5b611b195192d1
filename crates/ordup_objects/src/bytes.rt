//! Names as numbers: the tricks with bytes that make it cheap to find a name.
//!
//! Each line of a script names an object, a site or a query, so a lookup must cost little. A name has at most 16 bytes. Its first 8
//! and its last 8 bytes hold all of it, or its first and last 4 or 2 where it is shorter; the two parts may overlap. Each part is
//! read as one number. There is no loop over the bytes, whose end is another one in each name and a branch that the processor
//! does not foresee.
//!
//! - **Compare the ends** (`are_alike`): two names are equal where both parts are.
//! - **Copy the ends** (`copy_short`): a copy of a length that the compiler does not know is a call, and these are two moves.
//! - **Guess before hashing** (`Hints`): the same two parts, mixed, pick a slot that holds a guess of where the name stands.
//!   `NameTable::find` compares the name that stands there, and hashes the bytes only where the guess was wrong.
//! - **A length as wide as a machine word** (`Name`): with one byte for it, a name that is moved is written in pieces of 1 to 5
//!   bytes and read back in wider ones, which waits for the cache.
//!
//! `bench/NOTES.md` has what each brings.
ghost use Rattle.std.specs.Prelude.{◌≡◌, ◌≤◌, ◌*◌, length, nat_eq};
ghost use Rattle.std.specs.Cmp.Lexicographic.{pointwise};

/// Whether two runs of bytes are the same, of which the second has at most 16.
#[inline(always)]
pub(crate) fn are_alike(a: &[u8], b: &[u8]) -> bool
    requires { length b.now ≤ 16 }
    ensures { result ≡ pointwise nat_eq a.now b.now }
{
    let len = b.len();
    if a.len() != len {
        return false;
    }
    if len >= 8 {
        have_alike_ends::<8>(a, b)
    } else if len >= 4 {
        have_alike_ends::<4>(a, b)
    } else if len >= 2 {
        have_alike_ends::<2>(a, b)
    } else {
        len == 0 || a[0] == b[0]
    }
}

/// Whether the first and the last N bytes of two runs of one length are the same, where these are all bytes.
#[inline(always)]
fn have_alike_ends<const N: usize>(a: &[u8], b: &[u8]) -> bool
    requires { (length a.now ≡ length b.now) × (N ≤ length b.now) × (length b.now ≤ 2 * N) }
    ensures { result ≡ pointwise nat_eq a.now b.now }
{
    (a.first_chunk::<N>().unwrap() == b.first_chunk::<N>().unwrap())
        & (a.last_chunk::<N>().unwrap() == b.last_chunk::<N>().unwrap())
}

// promise: a text is copied as it is
/// Copies a text of another length each time, as a name is: up to 16 bytes by two moves.
#[inline(always)]
pub fn copy_short(to: &mut [u8], from: &[u8])
    requires { length to.old ≡ length from.now }
    ensures { to.new ≡ from.now }
{
    let len = from.len();
    if len > 16 {
        to.copy_from_slice(from);
    } else if len >= 8 {
        copy_ends::<8>(to, from);
    } else if len >= 4 {
        copy_ends::<4>(to, from);
    } else if len >= 2 {
        copy_ends::<2>(to, from);
    } else {
        to.copy_from_slice(from);
    }
}

/// Copies the first and the last N bytes of a text, which are all of its bytes. They may overlap.
#[inline(always)]
fn copy_ends<const N: usize>(to: &mut [u8], from: &[u8])
    requires { (length to.old ≡ length from.now) × (N ≤ length from.now) × (length from.now ≤ 2 * N) }
    ensures { to.new ≡ from.now }
{
    *to.first_chunk_mut::<N>().unwrap() = *from.first_chunk::<N>().unwrap();
    *to.last_chunk_mut::<N>().unwrap() = *from.last_chunk::<N>().unwrap();
}

/// How many guesses there are.
const SLOTS: usize = 256;

/// Guesses of where names stand in a table, each in a slot that the bytes of the name pick.
///
/// A guess may be wrong: the caller compares the name that stands there, and no clause speaks of guesses.
#[derive(Drop)]
pub struct Hints {
    indexes: [u8; SLOTS],
}

impl Hints {
    /// No guess is noted yet: each name is guessed at 0.
    pub fn new() -> Self {
        Hints {
            indexes: [0; SLOTS],
        }
    }

    /// A guess of where a name stands.
    #[inline(always)]
    pub fn guess(&self, name: &[u8]) -> usize {
        self.indexes[slot_of(name) as usize] as usize
    }

    /// Notes where a name stands. Its slot forgets what it held, and an index past the 256th is not guessed.
    pub fn note(&mut self, name: &[u8], index: usize) {
        self.indexes[slot_of(name) as usize] = (index % SLOTS) as u8;
    }
}

/// The slot, of 256, that the bytes of a short text pick.
///
/// No clause speaks of it, since whoever keeps something in a slot compares what is there.
#[inline(always)]
pub fn slot_of(text: &[u8]) -> u8 {
    let (first, last) = ends_of(text);
    let mixed = first
        .wrapping_add(last.rotate_left(7))
        .wrapping_mul(0x9e37_79b9_7f4a_7c15);
    (mixed >> 56) as u8
}

/// The first and the last bytes of a text as two numbers, which hold all bytes of one of up to 16.
#[inline(always)]
fn ends_of(text: &[u8]) -> (u64, u64) {
    if let (Some(first), Some(last)) = (text.first_chunk::<8>(), text.last_chunk::<8>()) {
        return (u64::from_le_bytes(*first), u64::from_le_bytes(*last));
    }
    if let (Some(first), Some(last)) = (text.first_chunk::<4>(), text.last_chunk::<4>()) {
        return (
            u32::from_le_bytes(*first) as u64,
            u32::from_le_bytes(*last) as u64,
        );
    }
    if let (Some(first), Some(last)) = (text.first_chunk::<2>(), text.last_chunk::<2>()) {
        return (
            u16::from_le_bytes(*first) as u64,
            u16::from_le_bytes(*last) as u64,
        );
    }
    match text {
        [only] => (*only as u64, 0),
        _ => (0, 0),
    }
}
