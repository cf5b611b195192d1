//! A thing is put behind a handle.
ghost use Rattle.std.specs.Prelude.{◌≡◌, None, Some, IfErr, MatchOption};
ghost use Rattle.ordup_shared.specs.declared.status.TheConstants.{DONE, NO_MEMORY};

use crate::handle::Handle;
use crate::status::{DONE, NO_MEMORY};
use crate::thing::{Kind, Thing};
use ordup_primary::Setup;
use std::alloc::Global;

/// Opens a handle on this. Where memory is refused it stays closed.
pub(crate) fn put_new(alloc: Global, handle: &mut Handle, kind: Kind) -> u32
    requires { handle.old.held.thing ≡ None }
    ensures { MatchOption handle.new.held.thing (result ≡ NO_MEMORY) (λ thing. (result ≡ DONE) × (thing.kind ≡ kind)) }
{
    match Box::new(alloc, Thing { kind }) {
        Ok(thing) => {
            handle.put(thing);
            DONE
        }
        Err(_) => NO_MEMORY,
    }
}

/// A thing of no meaning yet, which takes the memory that a handle wants.
pub(crate) fn room(alloc: Global) -> Option<Box<Thing>> {
    let kind = Kind::OfSetup(Setup::new(alloc));
    match Box::new(alloc, Thing { kind }) {
        Ok(thing) => Some(thing),
        Err(_) => None,
    }
}
