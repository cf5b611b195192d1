ghost use Rattle.std.specs.Prelude.{◌≡◌, ◌&&◌, ℕ, ◌<◌, None, Some, IfSome, IfOk, OnErr, List, [], ◌∷◌, ◌++◌, length, true, take, slice_get, option_map, nat_eq};
ghost use Rattle.std.specs.Cmp.Lexicographic.{pointwise};
ghost use Rattle.ordup_objects.specs.Names.{is_name};
ghost use Rattle.ordup_objects.specs.Tables.{names_of, index_of, with_entry, AreNames, AreDistinct};

use crate::bytes::Hints;
use crate::name::{Name, NameBytes};
use indexmap::IndexMap;
use std::alloc::{AllocError, Allocator, Global};
use std::hash::{BuildHasherDefault, FoldHasher};
use std::marker::Model;
use std::mem;

/// Names in order of declaration, each with an entry.
#[derive(Drop)]
pub struct NameTable<V, A: Allocator + Copy = Global> {
    entries: IndexMap<Name, V, BuildHasherDefault<FoldHasher>, A>,
    hints: Hints,
}

impl<V, A: Allocator + Copy> Model for NameTable<V, A> {
    ghost use Rattle.std.specs.Prelude.{List, ℕ};
    ghost use Rattle.ordup_objects.specs.Tables.{AreNames};

    ghost Value = { List (List ℕ × V) };

    ghost view = { λ t. t.entries.entries };

    ghost invariant = { λ t. AreNames t.entries.entries };
}

impl<V, A: Allocator + Copy> NameTable<V, A> {
    // promise: a table finds exactly its names; none comes twice
    /// A table without names.
    pub fn new(alloc: A) -> Self
        ensures { result ≡ [] }
    {
        NameTable {
            entries: IndexMap::new(alloc),
            hints: Hints::new(),
        }
    }

    /// The allocator of the table.
    pub fn allocator(&self) -> &A {
        self.entries.allocator()
    }

    // promise: as NameTable::new
    // promise names distinct: as NameTable::new
    /// How many names there are.
    pub fn len(&self) -> usize
        ensures len { result ≡ length self.now }
        // What each table keeps, for the proofs of its users.
        ensures names { AreNames self.now }
        ensures distinct { AreDistinct self.now }
    {
        self.entries.len()
    }

    /// What each table keeps, for the proofs of its users. It does nothing.
    #[inline(always)]
    pub fn keeps(&self)
        ensures names { AreNames self.now }
        ensures distinct { AreDistinct self.now }
    {
        // No name comes twice, since the map has no two equal keys.
        let _count = self.entries.len();
    }

    // promise: as NameTable::new
    /// The index of the name that these bytes spell, if it is there.
    // The guess is tried before the bytes are hashed: see `bytes`.
    pub fn find(&self, name: &[u8]) -> Option<usize>
        ensures index { result ≡ index_of name.now self.now }
        ensures within { IfSome result (λ i. i < length self.now) }
    {
        let index = self.hints.guess(name);
        if index < self.len() && self.at(index).0.is_spelled(name) {
            return Some(index);
        }
        self.find_by_hash(name)
    }

    /// The index of the name that these bytes spell, if it is there, by their hash.
    // Not inlined, so that `find` stays small.
    #[inline(never)]
    fn find_by_hash(&self, name: &[u8]) -> Option<usize>
        ensures index { result ≡ index_of name.now self.now }
        ensures within { IfSome result (λ i. i < length self.now) }
    {
        self.entries.get_index_of(NameBytes { bytes: name })
    }

    // promise: as NameTable::new
    /// The name and the entry at an index.
    pub fn at(&self, index: usize) -> (&Name, &V)
        requires { index < length self.now }
        ensures entry { slice_get self.now index ≡ Some (result.0.now, result.1.now) }
        // No earlier entry has the name.
        ensures first { index_of result.0.now (take index self.now) ≡ None }
    {
        self.keeps();
        self.entries.get_index(index).unwrap()
    }

    // promise replaced before: a replaced entry leaves the names and the other entries
    /// Replaces the entry of the name at an index, and returns the entry that was there.
    pub fn replace(&mut self, index: usize, entry: V) -> V
        requires { index < length self.old }
        ensures replaced { self.new ≡ with_entry self.old index entry }
        ensures before { option_map (λ e. e.1) (slice_get self.old index) ≡ Some result }
    {
        mem::replace(self.entries.get_index_mut(index).unwrap(), entry)
    }

    // promise: as NameTable::new
    /// Adds a name that is not in the table.
    pub fn push(&mut self, name: Name, entry: V) -> Result<(), AllocError>
    where
        V: Drop,
        requires { index_of name self.old ≡ None }
        ensures ok { IfOk result (λ _. self.new ≡ self.old ++ (name, entry) ∷ []) }
        ensures err { OnErr result (self.new ≡ self.old) }
    {
        let index = self.entries.len();
        self.entries.insert(name, entry)?;
        self.hints.note(name.as_bytes(), index);
        Ok(())
    }
}

impl<V: PartialEq, A: Allocator + Copy> NameTable<V, A> {
    // promise: `is_same` compares all names and entries, in their order
    /// Whether two tables have the same names in the same order, with equal entries.
    pub fn is_same(&self, other: &NameTable<V, A>) -> bool
        ensures { result ≡ pointwise (λ p q. pointwise nat_eq p.0 q.0 && V.eq p.1 q.1) self.now other.now }
    {
        self.entries.as_slice() == other.entries.as_slice()
    }
}
