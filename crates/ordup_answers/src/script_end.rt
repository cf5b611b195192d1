ghost use Rattle.std.specs.Prelude.{◌≡◌};

use ordup_world::{Setup, World};
use std::alloc::{Allocator, Global};
use std::mem;

/// Where a script stands: what it has declared, or the store that it has started.
#[derive(Drop)]
pub enum ScriptEnd<A: Allocator + Copy = Global> {
    /// No `start` was accepted.
    Declared(Setup<A>),
    /// The store after the `start` that was accepted.
    Running(World<A>),
}

impl<A: Allocator + Copy> ScriptEnd<A> {
    ghost use Rattle.ordup_answers.specs.ScriptStates.{Stands, first_state};

    /// Where an empty script stands.
    pub(crate) fn new(alloc: A) -> Self
        ensures { Stands result first_state }
    {
        ScriptEnd::Declared(Setup::new(alloc))
    }

    /// Stands with a started store from now on.
    pub(crate) fn run(&mut self, world: World<A>)
        ensures { self.new ≡ ScriptEnd.Running world }
    {
        mem::replace(self, ScriptEnd::Running(world)).discard();
    }

    /// Drops it, by one call, and gives its memory back.
    pub fn discard(self) {
        match self {
            ScriptEnd::Declared(setup) => setup.discard(),
            ScriptEnd::Running(world) => world.discard(),
        }
    }
}
