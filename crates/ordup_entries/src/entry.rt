ghost use Rattle.std.specs.Prelude.{◌≡◌};

use crate::step::Step;
use ordup_grammar::Word;
use std::alloc::{Allocator, Global};
use std::marker::Model;

/// What the first line of an entry says.
#[derive(Drop)]
pub struct Header<'a> {
    /// The epoch that the entry is of, from 1.
    pub epoch: u64,
    /// The version of ordup that runs the epoch.
    pub version: Word<'a>,
    /// The process that wrote the entry.
    pub writer: Word<'a>,
}

/// An entry of a script. Its texts lie in the text that it was read from, or where its writer has them.
#[derive(Drop)]
pub struct Entry<'a, A: Allocator + Copy = Global> {
    header: Header<'a>,
    steps: Vec<Step<'a>, A>,
}

impl<'a, A: Allocator + Copy> Model for Entry<'a, A> {
    ghost use Rattle.ordup_entries.specs.Entries.{ScriptEntry};

    ghost Value = { ScriptEntry };

    ghost view = { λ e. record { header = e.header; steps = e.steps.items } };
}

impl<'a, A: Allocator + Copy> Entry<'a, A> {
    /// The entry of a first line and these steps.
    pub fn new(header: Header<'a>, steps: Vec<Step<'a>, A>) -> Self
        ensures header { result.header ≡ header.entry }
        ensures steps { result.steps ≡ steps.entry.items }
    {
        Entry { header, steps }
    }

    /// What its first line says.
    pub fn header(&self) -> &Header<'a>
        ensures { result.now ≡ self.now.header }
    {
        &self.header
    }

    /// Its steps.
    pub fn steps(&self) -> &[Step<'a>]
        ensures { result.now ≡ self.now.steps }
    {
        &self.steps
    }
}
