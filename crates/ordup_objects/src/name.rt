ghost use Rattle.std.specs.Prelude.{◌≡◌, ◌↔◌, IsOk, IfOk, IfErr, IsTrue, nat_eq, ◌∷◌, []};
ghost use Rattle.std.specs.List.{list_all};
ghost use Rattle.std.specs.Cmp.Lexicographic.{pointwise, nat_list_eq_equiv};
ghost use Rattle.std.specs.Cmp.Rules.{comparing, hashing};
ghost use Rattle.std.proofs.Common.{rules};
ghost use Rattle.ordup_objects.specs.Names.{is_letter, is_name_byte, is_name};

use crate::bytes::{are_alike, copy_short};
use crate::refusal::Refusal;
use crate::sizes::MOST_NAME_BYTES;
use indexmap::Equivalent;
use std::hash::{Hash, Hasher};
use std::marker::Model;

/// The name of an object, a group, a site or a query: 1 to 16 bytes of a to z, 0 to 9 and `_` that begin with a letter.
#[derive(Clone, Copy, Debug)]
pub struct Name {
    bytes: [u8; MOST_NAME_BYTES],
    // As wide as a machine word, so that a name moves in wide pieces: see `bytes`.
    len: usize,
}

impl Model for Name {
    ghost use Rattle.std.specs.Prelude.{ℕ, List};

    ghost Value = { List ℕ };

    ghost use Rattle.ordup_objects.specs.NameInside.{bytes_of, IsPadded, inside_of, inside_of-bytes_of};

    ghost view = { bytes_of };

    ghost invariant = { IsPadded };

    ghost inverse = { inside_of };

    ghost inverse_ok = { inside_of-bytes_of };
}

impl Name {
    // promise name ok err: names are 1 to 16 bytes of the alphabet, the first a letter
    /// The name that these bytes spell. Bytes that spell no name are refused `BadName`.
    pub fn new(bytes: &[u8]) -> Result<Self, Refusal>
        ensures name { IfOk result (λ n. n ≡ bytes.now) }
        ensures ok { IsOk result ↔ IsTrue (is_name bytes.now) }
        ensures err { IfErr result (λ e. e ≡ Refusal.BadName) }
    {
        if is_name(bytes) {
            Ok(Name::padded(bytes))
        } else {
            Err(Refusal::BadName)
        }
    }

    /// The name that these bytes spell, which are known to be a name.
    fn padded(bytes: &[u8]) -> Self
        requires { IsTrue (is_name bytes.now) }
        ensures { result ≡ bytes.now }
    {
        let mut padded = [0; MOST_NAME_BYTES];
        copy_short(&mut padded[..bytes.len()], bytes);
        Name {
            bytes: padded,
            len: bytes.len(),
        }
    }

    // promise: as Name::new
    /// The bytes of the name.
    pub fn as_bytes(&self) -> &[u8]
        ensures bytes { result.now ≡ self.now }
        // What each name keeps, for the proofs of its users.
        ensures name { IsTrue (is_name self.now) }
    {
        &self.bytes[..self.len]
    }

    /// What each name keeps, for the proofs of its users. It does nothing.
    #[inline(always)]
    pub fn keeps(&self)
        ensures { IsTrue (is_name self.now) }
    {
        let _ = &self.bytes;
    }

    /// Whether these bytes spell the name.
    #[inline(always)]
    pub fn is_spelled(&self, bytes: &[u8]) -> bool
        ensures { result ≡ pointwise nat_eq bytes.now self.now }
    {
        are_alike(bytes, self.as_bytes())
    }
}

fn is_letter(byte: u8) -> bool
    ensures { result ≡ is_letter byte }
{
    97 <= byte && byte <= 122
}

fn is_name_byte(byte: u8) -> bool
    ensures { result ≡ is_name_byte byte }
{
    is_letter(byte) || (48 <= byte && byte <= 57) || byte == 95
}

fn are_name_bytes(bytes: &[u8]) -> bool
    ensures { result ≡ list_all is_name_byte bytes.now }
{
    bytes.iter().all(|b| is_name_byte(*b))
}

fn is_name(bytes: &[u8]) -> bool
    ensures { result ≡ is_name bytes.now }
{
    match bytes {
        [first, ..] => {
            is_letter(*first) && bytes.len() <= MOST_NAME_BYTES && are_name_bytes(bytes)
        }
        [] => false,
    }
}

impl PartialEq for Name {
    ghost eq = { λ x y. pointwise nat_eq x y };

    ghost laws = { Prim.search (comparing, rules) };

    // promise: as Name::new
    fn eq(&self, other: &Name) -> bool {
        self.len == other.len && self.bytes == other.bytes
    }
}

impl Eq for Name {
    ghost laws = { Prim.search (comparing, rules) };
}

impl Hash for Name {
    ghost hash_input = { λ x. x ∷ [] };

    ghost respects_eq = { Prim.search (hashing, rules) };

    fn hash<H: Hasher>(&self, state: &mut H) {
        state.write(self.as_bytes());
    }
}

/// The bytes by which a name is looked up in a map of names. Where they spell no name, none is found.
#[derive(Clone, Copy)]
pub struct NameBytes<'a> {
    pub bytes: &'a [u8],
}

impl PartialEq for NameBytes<'_> {
    ghost eq = { λ x y. pointwise nat_eq x.bytes.now y.bytes.now };

    ghost laws = { Prim.search (comparing, rules) };

    fn eq(&self, other: &NameBytes<'_>) -> bool {
        self.bytes == other.bytes
    }
}

impl Eq for NameBytes<'_> {
    ghost laws = { Prim.search (comparing, rules) };
}

impl Hash for NameBytes<'_> {
    ghost hash_input = { λ x. x.bytes.now ∷ [] };

    ghost respects_eq = { Prim.search (hashing, rules) };

    fn hash<H: Hasher>(&self, state: &mut H) {
        state.write(self.bytes);
    }
}

impl Equivalent<Name> for NameBytes<'_> {
    ghost equivalent = { λ q k. pointwise nat_eq q.bytes.now k };

    ghost respects_hash = { Prim.search (hashing, rules) };

    ghost respects_eq = { λ q x y. nat_list_eq_equiv.congr q.bytes.now x y };

    fn equivalent(&self, key: &Name) -> bool {
        key.is_spelled(self.bytes)
    }
}
