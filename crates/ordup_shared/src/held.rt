//! A thing as a pointer to it.
ghost use Rattle.std.specs.Prelude.{◌≡◌, Option, Some, None, IsSome};
ghost use Rattle.ordup_shared.specs.declared.thing.Thing.{Thing};

use crate::parts::Parts;
use crate::thing::Thing;
use std::alloc::Global;
use std::marker::Model;

/// A pointer to a thing, or to none.
#[repr(C)]
#[derive(Drop)]
pub struct Held {
    pub(crate) at: *mut u8,
    pub(crate) alloc: Global,
    pub(crate) ghost thing: { Option Thing },
}

impl Model for Held {
    ghost use Rattle.ordup_shared.specs.contracts.thing.Thing as row;
    ghost use Rattle.ordup_shared.specs.Owned.{owns_held};

    ghost also_owns = { λ h. owns_held h.alloc row.the_row h.at h.thing };
}

impl Held {
    /// A pointer to none.
    pub(crate) fn none(alloc: Global) -> Held
        ensures { result.thing ≡ None }
    {
        Held {
            at: std::ptr::null_mut(),
            alloc,
        }
    }

    /// A pointer to the thing of these parts.
    pub(crate) fn of_parts(parts: Parts<Thing, Global>) -> Held
        ensures { result.thing ≡ Some parts.value }
    {
        let Parts { ptr, alloc } = parts;
        let at = ptr as *mut u8;
        Held { at, alloc }
    }

    /// The parts of the thing.
    pub(crate) fn into_parts(self) -> Parts<Thing, Global>
        requires { IsSome self.thing }
        ensures { self.thing ≡ Some result.value }
    {
        let Held { at, alloc } = self;
        let ptr = at as *mut Thing;
        Parts { ptr, alloc }
    }
}

// What it points to is its own.
unsafe impl Send for Held {}
