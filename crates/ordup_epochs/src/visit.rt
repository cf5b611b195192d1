ghost use Rattle.std.specs.Prelude.{◌≡◌, true, IfOk, IfErr};
ghost use Rattle.std.specs.Sync.RwLock.{read_guard_value};
ghost use Rattle.ordup_epochs.specs.Stages.{is_open, IsVisited, IsWhyClosed};
ghost use Rattle.ordup_epochs.specs.declared.stage.Stage.TheVariants.{Open};

use crate::stage::Stage;
use ordup_cluster::Cluster;
use ordup_objects::Refusal;
use std::marker::Model;
use std::ops::Deref;
use std::sync::RwLockReadGuard;

/// The visit of a caller to the epoch that is open, which does not end before the visit does.
///
/// A thread has one visit at a time: a second one could wait for a successor that waits for the first.
#[derive(Drop)]
pub struct Visit<'a> {
    stage: RwLockReadGuard<'a, Stage>,
    visits: RwLockReadGuard<'a, ()>,
    ghost open: { is_open (read_guard_value stage) ≡ true },
}

impl<'a> Model for Visit<'a> {
    ghost use Rattle.std.specs.Sync.RwLock.{read_guard_value};
    ghost use Rattle.ordup_epochs.specs.declared.stage.Stage.{Stage};

    ghost Value = { Stage };

    ghost view = { λ v. read_guard_value v.stage };
}

impl<'a> Visit<'a> {
    // promise refused: where no epoch is open, a visit is refused for the kept reason
    /// A visit to the epoch that is open. It is refused where none is, for the reason that is kept there.
    pub(crate) fn new(
        visits: RwLockReadGuard<'a, ()>,
        stage: RwLockReadGuard<'a, Stage>,
    ) -> Result<Visit<'a>, Refusal>
        ensures visited { IfOk result IsVisited }
        ensures refused { IfErr result (IsWhyClosed (read_guard_value stage.entry)) }
    {
        match &*stage {
            Stage::Open(_) => Ok(Visit { stage, visits }),
            Stage::Closed(_, refusal) => Err(*refusal),
            Stage::Over(site) => Err(Refusal::Mixed { site: *site }),
        }
    }
}

impl Deref for Visit<'_> {
    type Target = Cluster;

    ghost deref_gives = { λ visit epoch. visit ≡ Open epoch };

    fn deref(&self) -> &Cluster {
        match &*self.stage {
            Stage::Open(epoch) => epoch,
            _ => unreachable!(),
        }
    }
}
