use ordup_cluster::Closed;
use std::sync::Wait;

/// Where `Epochs::keep` puts each epoch that has ended, so that nothing of it is lost: its records can be written there.
///
/// - `keep` makes the one call after each successor that it starts, in their order, in its thread, and holds no lock then. Visits may
///   have begun in the successor.
/// - Until the call returns, `keep` starts no further successor, is nobody's keeper, and does not end. So an archive that waits holds
///   visits up once the epoch that is open has its updates, and nothing that has ended waits in memory. It does not visit the epochs: a
///   visit may wait for a successor that only this thread starts.
/// - The archive owns what it is given. If it cannot write that now, as on a full disk, it keeps it, and tries again at the next call,
///   or once `keep` has ended. What it lets go is gone.
/// - An epoch that a caller ends is handed out by `Epochs::start_successor`, and the last one by `Epochs::close`.
pub trait Archive {
    ghost use Rattle.std.specs.Prelude.{◌≡◌, None};
    ghost use Rattle.ordup_cluster.specs.Clusters.{ClosedState, IsClosed, closed_successor_refusal};

    /// What may become of an archive by an epoch. One that promises nothing leaves it out.
    ghost adds: { Self → ClosedState → Self → Type 0 } = { λ _ _ _. Unit {0} };

    /// Puts an epoch that has ended, and that a successor follows, into the archive.
    fn add<R: Wait>(&mut self, rt: &R, ended: Closed)
        requires closed { IsClosed ended }
        requires followed { closed_successor_refusal ended ≡ None }
        ensures added { adds self.old ended self.new };
}

/// An archive that lets go of all that it is given.
#[derive(Drop)]
pub struct NoArchive;

impl Archive for NoArchive {
    fn add<R: Wait>(&mut self, _rt: &R, ended: Closed) {
        ended.discard();
    }
}
