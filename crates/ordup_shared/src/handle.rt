//! What a program in C holds of the library's things.
ghost use Rattle.std.specs.Prelude.{◌≡◌, None, Some, MatchOption};
ghost use Rattle.ordup_shared.specs.Handles.{IsMarked, is_open};

use crate::held::Held;
use crate::parts::Parts;
use crate::thing::Thing;
use std::alloc::Global;
use std::mem;

/// The mark of a handle that is open.
pub const MARK: u64 = 0x0070_7564_726f_0001;

/// A handle that is open, or closed. All zero it is closed.
#[repr(C)]
#[derive(Drop)]
pub struct Handle {
    pub(crate) held: Held,
    /// `MARK` where it is open.
    pub(crate) mark: u64,
    pub(crate) ghost marked: { IsMarked mark held.thing },
}

/// A handle may be passed to another thread between two calls.
pub fn handles_may_be_sent() {
    is_send::<Handle>();
}

fn is_send<T: Send>() {}

impl Handle {
    /// A closed one.
    pub(crate) fn none(alloc: Global) -> Handle
        ensures { result.held.thing ≡ None }
    {
        Handle {
            held: Held::none(alloc),
            mark: 0,
        }
    }

    /// Takes the thing out, if there is one. The handle is closed then.
    pub(crate) fn take(&mut self, alloc: Global) -> Option<Box<Thing>>
        ensures taken { MatchOption result (self.old.held.thing ≡ None) (λ b. self.old.held.thing ≡ Some b.value) }
        ensures left { self.new.held.thing ≡ None }
    {
        if self.mark != MARK {
            return None;
        }
        let Handle { held, mark: _ } = mem::replace(self, Handle::none(alloc));
        Some(held.into_parts().into_box())
    }

    /// Whether it is open.
    pub(crate) fn is_open(&self) -> bool
        ensures { result ≡ is_open self.now.held.thing }
    {
        self.mark == MARK
    }

    /// Puts a thing in.
    pub(crate) fn put(&mut self, thing: Box<Thing>)
        ensures { self.new.held.thing ≡ Some thing.value }
    {
        *self = Handle {
            held: Held::of_parts(Parts::of(thing)),
            mark: MARK,
        };
    }
}
