ghost use Rattle.std.specs.Prelude.{◌≡◌, ◌<◌, ◌≤◌, ◌↔◌, IsTrue, length};
ghost use Rattle.ordup_objects.specs.Serial.{serial};
ghost use Rattle.ordup_holds.specs.Agreement.{Agrees};

use ordup_log::Log;
use ordup_objects::{SiteId, Values};
use ordup_primary::Primary;
use ordup_site::Site;

// promise: a site agrees exactly if it holds a prefix between what it reported and was sent
/// Whether a site holds the serial result of the first updates of a primary's log, as many as it applied, and it applied no fewer
/// than it reported and no more than were sent to it.
///
/// A site that applied the whole log is compared with the values that the log keeps. Else the log is applied again, to these values,
/// which are the initial ones of the primary's objects. It takes no memory.
pub fn agree(primary: &Primary, site: SiteId, replica: &Site, values: Values) -> bool
    requires site { site < length primary.now.sites }
    requires values { values ≡ primary.now.log.start }
    ensures { IsTrue result ↔ Agrees primary.now site replica.now }
{
    primary.keeps();
    let applied = replica.applied();
    if applied < primary.reported(site) || primary.sent(site) < applied {
        return false;
    }
    if applied == primary.log().len() {
        drop(values);
        return are_same(primary.log().end(), replica.values());
    }
    let mut replayed = values;
    replay(primary.log(), applied, &mut replayed);
    are_same(&replayed, replica.values())
}

/// Whether two states have the same values.
fn are_same(values: &Values, others: &Values) -> bool
    ensures { IsTrue result ↔ (values.now ≡ others.now) }
{
    values.as_slice() == others.as_slice()
}

/// Applies the first updates of a log to its initial values.
fn replay(log: &Log, updates: u64, values: &mut Values)
    requires start { values.old ≡ log.now.start }
    requires there { updates ≤ length log.now.sets }
    ensures { values.new ≡ serial log.now updates }
{
    for number in 0..updates {
        let _ = values.apply(log.set(number + 1));
    }
}
