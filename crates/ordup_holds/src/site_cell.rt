ghost use Rattle.std.specs.Prelude.{◌≡◌, ◌+◌, ◌≤◌, ◌<◌, length, IfOk, IfErr, IfSome, IfNone};
ghost use Rattle.ordup_objects.specs.Serial.{serial};
ghost use Rattle.ordup_objects.specs.Sizes.{most_updates};
ghost use Rattle.ordup_objects.specs.States.{value_at};
ghost use Rattle.ordup_feed.specs.Parcels.{history_of};
ghost use Rattle.ordup_holds.specs.Cells.{HoldsTaken, TakesNext};

use crate::sides::TakeSide;
use ordup_feed::{TakeEnd, Taker, Takes};
use ordup_objects::{ObjectId, Refusal};
use ordup_site::Site;
use std::marker::Model;

// promise: the site of a free cell holds the serial result of what was taken
/// What lies under the lock of a site: the site, and the taker's end of its feed.
#[derive(Drop)]
pub struct SiteCell<T: Takes = TakeEnd> {
    site: Site,
    end: TakeSide<T>,
}

impl<T: Takes> Model for SiteCell<T> {
    ghost use Rattle.ordup_holds.specs.Cells.{CellState};

    ghost Value = { CellState };

    ghost view = { λ s. record { site = s.site; end = s.end } };

    ghost use Rattle.ordup_holds.specs.Cells.{HoldsTaken};

    ghost invariant = { λ s. HoldsTaken (record { site = s.site; end = s.end }) };
}

/// A value that was read at a site.
#[derive(Clone, Copy, Debug, PartialEq, Eq)]
pub struct SeenValue {
    /// The value of the object.
    pub value: i64,
    /// How many updates the site had applied.
    pub applied: u64,
}

impl<T: Takes> SiteCell<T> {
    /// The cell of a site that applied what was taken at the end of its feed.
    pub(crate) fn new(site: Site, end: TakeSide<T>) -> SiteCell<T>
        requires { HoldsTaken (record { site = site; end = end }) }
        ensures { result ≡ record { site = site; end = end } }
    {
        SiteCell { site, end }
    }

    /// The number of the update that the site applies next.
    pub fn next(&self) -> u64
        ensures { result ≡ length self.now.end.taken + 1 }
    {
        self.site.applied() + 1
    }

    // promise held: as SiteCell
    /// The site.
    pub fn site(&self) -> &Site
        ensures site { result.now ≡ self.now.site }
        // What each cell keeps: the site holds the serial result of what was taken.
        ensures held { HoldsTaken self.now }
    {
        &self.site
    }

    // promise held: as SiteCell
    /// The site, without the end of its feed.
    pub fn into_site(self) -> Site
        ensures site { result ≡ self.site }
        ensures held { HoldsTaken self }
    {
        let SiteCell { site, end } = self;
        drop(end);
        site
    }
}

// promise taken none held: the next parcel is taken, applied and told; or nothing changes
// promise held: as SiteCell
/// Takes the next parcel of a cell's feed, if there is one: the site applies it, and tells how many it applied. It answers the
/// number of the update.
pub fn take<H, T: Taker<H>>(rt: &H, cell: &mut SiteCell<T>) -> Option<u64>
    ensures taken { IfSome result (TakesNext cell.old cell.new) }
    ensures none { IfNone result (cell.new ≡ cell.old) }
    ensures held { HoldsTaken cell.new }
{
    let parcel = cell.end.pop(rt)?;
    cell.site.apply(&parcel.set);
    cell.end.tell(rt);
    Some(parcel.number)
}

// promise: a view answers the value and the updates taken, exactly for a known object
/// The value of an object in a cell, and how many updates its site applied.
///
/// It is refused `UnknownObject` where there is no such object.
pub fn view<T: Takes>(cell: &SiteCell<T>, object: ObjectId) -> Result<SeenValue, Refusal>
    ensures value { IfOk result (λ seen. seen.value ≡ value_at (serial (history_of cell.now.end.start cell.now.end.taken) (length cell.now.end.taken)) object) }
    ensures applied { IfOk result (λ seen. seen.applied ≡ length cell.now.end.taken) }
    ensures bounded { IfOk result (λ seen. seen.applied ≤ most_updates) }
    ensures allowed { IfOk result (λ _. object < length cell.now.end.start) }
    ensures refused { IfErr result (λ e. (e ≡ Refusal.UnknownObject) × (length cell.now.end.start ≤ object)) }
{
    if object.index() >= cell.site.len() {
        return Err(Refusal::UnknownObject);
    }
    Ok(SeenValue {
        value: cell.site.value(object),
        applied: cell.site.applied(),
    })
}
