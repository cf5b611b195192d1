//! The law of declarations.
ghost use Rattle.std.specs.Prelude.{◌≡◌, All, None};
ghost use Rattle.ordup_limits.specs.Entries.{AreEntries};
ghost use Rattle.ordup_primary.specs.Declarations.{start_refusal};
ghost use Rattle.ordup_succession.specs.ReadingBack.{ReadsBack};

use ordup_objects::SiteId;
use ordup_primary::Setup;
use std::alloc::Allocator;

// promise: the lines of a ready setup, as a script, declare just it and start its store; no wrong body: it has none
/// The lines of a setup that is ready declare that setup and start its store, where they are run as a script. It changes nothing.
pub fn declarations_read_back<A: Allocator + Copy>(setup: &Setup<A>)
    ensures { start_refusal setup.now ≡ None → ReadsBack A setup.now }
{
    setup.keeps();
    setup.objects().keeps();
    setup.groups().keeps();
    let _sites = setup.sites();
    limits_keep(setup);
}

/// What the limits of each site keep, for the proof of the law. It changes nothing.
fn limits_keep<A: Allocator + Copy>(setup: &Setup<A>)
    ensures { All AreEntries setup.now.limits }
{
    for index in 0..setup.sites() {
        setup.limits(SiteId::new(index as u8)).keeps();
    }
}
