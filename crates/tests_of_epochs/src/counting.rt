//! What the clause `archived` of `Epochs::keep` tells who lends it an archive that counts: both count the same.
ghost use Rattle.std.specs.Prelude.{◌≡◌, ◌≤◌, ℕ, IfErr, IfOk};

use super::promises::keep;
use ordup_cluster::Closed;
use ordup_epochs::{Archive, Epochs};
use ordup_objects::Refusal;
use std::alloc::Global;
use std::sync::Wait;
use std::time::Clock;

/// How many epochs were put into it.
#[derive(Drop)]
struct Counter(u64);

impl Archive for Counter {
    ghost use Rattle.std.specs.Prelude.{◌≡◌, ◌+◌, ◌-◌, ◌^◌, min};

    ghost adds = { λ old _ new. new.0 ≡ min (old.0 + 1) (2 ^ 64 - 1) };

    fn add<R: Wait>(&mut self, _rt: &R, ended: Closed) {
        self.0 = self.0.saturating_add(1);
        ended.discard();
    }
}

/// `keep`, with an archive that counts: how many successors it started, and how many epochs it put into the archive.
pub fn keep_counted<R: Wait + Clock>(
    rt: &R,
    epochs: &Epochs,
    alloc: Global,
    turns: u64,
) -> Result<(u64, u64), Refusal>
    requires { 1 ≤ turns }
    ensures same { IfOk result (λ counts. counts.0 ≡ counts.1) }
    ensures refused { IfErr result (λ e. (site : ℕ) × (e ≡ Refusal.Mixed site)) }
{
    let mut archive = Counter(0);
    let kept = keep(rt, epochs, alloc, turns, &mut archive)?;
    Ok((kept, archive.0))
}
