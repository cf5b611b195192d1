ghost use Rattle.std.specs.Prelude.{◌≡◌, ◌+◌, ◌<◌, None, [], All, length, IfOk, OnOk, IfErr};
ghost use Rattle.ordup_objects.specs.Refusals.{IsRefusal};
ghost use Rattle.ordup_objects.specs.Tables.{initial_state};
ghost use Rattle.ordup_primary.specs.Declarations.{start_refusal};
ghost use Rattle.ordup_holds.specs.Opening.{AreOpened, AreFirstFeeds};

use crate::book::Book;
use crate::sides::{SendSide, TakeSide};
use crate::site_cell::SiteCell;
use ordup_feed::{Feed, Feeds};
use ordup_objects::{Refusal, SiteId, Values, or_give_up};
use ordup_primary::{Primary, Setup};
use ordup_site::Site;
use std::alloc::Global;

// promise: a store opens with an empty log, and for each site a cell and an unused feed
/// The book of a store in which nothing has happened, and the cells of its sites in order of declaration.
///
/// It is refused `Empty` where the setup lacks an object or a site, and `NoMemory`.
pub fn open(alloc: Global, setup: Setup) -> Result<(Book, Vec<SiteCell>), Refusal>
    ensures opened { IfOk result (λ opened. AreOpened setup opened.0 opened.1.items) }
    ensures allowed { IfOk result (λ _. start_refusal setup ≡ None) }
    ensures refused { IfErr result (λ e. IsRefusal (start_refusal setup) e) }
{
    open_as::<Feed>(alloc, setup)
}

// promise opened allowed refused: as open
/// The same with feeds of some kind.
pub fn open_as<F: Feeds>(
    alloc: Global,
    setup: Setup,
) -> Result<(Book<F::Sender>, Vec<SiteCell<F::Taker>>), Refusal>
    ensures opened { IfOk result (λ opened. AreOpened setup opened.0 opened.1.items) }
    ensures allowed { IfOk result (λ _. start_refusal setup ≡ None) }
    ensures refused { IfErr result (λ e. IsRefusal (start_refusal setup) e) }
{
    if !setup.is_ready() {
        setup.discard();
        return Err(Refusal::Empty);
    }
    let primary = Primary::new(alloc, setup)?;
    let spare_values = or_give_up!(first_spare_values(alloc, primary.setup()), primary);
    let (ends, cells) = or_give_up!(
        first_feeds::<F>(alloc, primary.setup()),
        spare_values,
        primary
    );
    Ok((Book::new(primary, ends, spare_values), cells))
}

/// For each site a feed, whose ends are those of the book and of the site's cell.
fn first_feeds<F: Feeds>(
    alloc: Global,
    setup: &Setup,
) -> Result<(Vec<SendSide<F::Sender>>, Vec<SiteCell<F::Taker>>), Refusal>
    ensures feeds { IfOk result (λ feeds. AreFirstFeeds setup.now (length setup.now.sites) feeds.0.items feeds.1.items) }
    ensures refused { IfErr result (λ e. e ≡ Refusal.NoMemory) }
{
    let mut ends = Vec::new(alloc);
    let mut cells = Vec::new(alloc);
    or_give_up!(
        add_feeds::<F>(alloc, setup, &mut ends, &mut cells),
        ends,
        cells
    );
    Ok((ends, cells))
}

/// Adds the feed of each site.
fn add_feeds<F: Feeds>(
    alloc: Global,
    setup: &Setup,
    ends: &mut Vec<SendSide<F::Sender>>,
    cells: &mut Vec<SiteCell<F::Taker>>,
) -> Result<(), Refusal>
    requires none { AreFirstFeeds setup.now 0 ends.old.items cells.old.items }
    ensures feeds { OnOk result (AreFirstFeeds setup.now (length setup.now.sites) ends.new.items cells.new.items) }
    ensures refused { IfErr result (λ e. e ≡ Refusal.NoMemory) }
{
    for index in 0..setup.sites() {
        let site = SiteId::new(index as u8);
        add_feed::<F>(alloc, setup, site, ends, cells)?;
    }
    Ok(())
}

/// Adds the feed of one more site.
fn add_feed<F: Feeds>(
    alloc: Global,
    setup: &Setup,
    site: SiteId,
    ends: &mut Vec<SendSide<F::Sender>>,
    cells: &mut Vec<SiteCell<F::Taker>>,
) -> Result<(), Refusal>
    requires site { site < length setup.now.sites }
    requires feeds { AreFirstFeeds setup.now site ends.old.items cells.old.items }
    ensures feeds { OnOk result (AreFirstFeeds setup.now (site + 1) ends.new.items cells.new.items) }
    ensures refused { IfErr result (λ e. e ≡ Refusal.NoMemory) }
{
    ends.reserve(1)?;
    cells.reserve(1)?;
    let replica = Site::new(alloc, setup.objects())?;
    let Ok((end, taker)) = F::ends(alloc, setup.objects(), setup.capacity(site)) else {
        drop(replica);
        return Err(Refusal::NoMemory);
    };
    let end = SendSide::new(end);
    let taker = TakeSide::new(taker);
    let cell = SiteCell::new(replica, taker);
    ends.push_reserved(end);
    cells.push_reserved(cell);
    Ok(())
}

/// The initial values of the objects, once for each site.
fn first_spare_values(alloc: Global, setup: &Setup) -> Result<Vec<Values>, Refusal>
    ensures count { IfOk result (λ spare_values. length spare_values.items ≡ length setup.now.sites) }
    ensures values { IfOk result (λ spare_values. All (λ v. v ≡ initial_state setup.now.objects) spare_values.items) }
    ensures refused { IfErr result (λ e. e ≡ Refusal.NoMemory) }
{
    let mut spare_values = Vec::new(alloc);
    match add_spare_values(alloc, setup, &mut spare_values) {
        Ok(()) => Ok(spare_values),
        Err(refusal) => {
            drop(spare_values);
            Err(refusal)
        }
    }
}

/// Adds the initial values of the objects, once for each site.
fn add_spare_values(
    alloc: Global,
    setup: &Setup,
    spare_values: &mut Vec<Values>,
) -> Result<(), Refusal>
    requires none { spare_values.old.items ≡ [] }
    ensures count { OnOk result (length spare_values.new.items ≡ length setup.now.sites) }
    ensures values { OnOk result (All (λ v. v ≡ initial_state setup.now.objects) spare_values.new.items) }
    ensures refused { IfErr result (λ e. e ≡ Refusal.NoMemory) }
{
    for _ in 0..setup.sites() {
        spare_values.reserve(1)?;
        spare_values.push_reserved(Values::initial(alloc, setup.objects())?);
    }
    Ok(())
}
