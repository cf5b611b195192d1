ghost use Rattle.std.specs.Prelude.{◌≡◌, max};

use std::marker::Model;

// waits: as Cluster::new
/// How many updates one caller has seen by its calls, those before its store too. It sees no less afterwards, in whatever successor
/// of that store.
#[derive(Drop)]
pub struct Session {
    seen: u64,
}

impl Model for Session {
    ghost use Rattle.ordup_cluster.specs.Sessions.{SessionState};

    ghost Value = { SessionState };

    ghost view = { λ s. record { seen = s.seen } };
}

impl Session {
    // promise: a session has seen nothing at first, and never sees less
    /// A session that has seen nothing.
    pub fn new() -> Session
        ensures { result ≡ record { seen = 0 } }
    {
        Session { seen: 0 }
    }

    // promise: as Session::new
    /// How many updates it has seen.
    pub fn seen(&self) -> u64
        ensures { result ≡ self.now.seen }
    {
        self.seen
    }

    /// It has seen the update with this number.
    pub(crate) fn see(&mut self, number: u64)
        ensures { self.new ≡ record { seen = max self.old.seen number } }
    {
        self.seen = self.seen.max(number);
    }
}
