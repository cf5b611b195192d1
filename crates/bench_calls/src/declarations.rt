use crate::kind::Kind;
use ordup_limits::sizes::GREATEST_AMOUNT;
use ordup_limits::{GroupId, Scope};
use ordup_objects::{ObjectId, Refusal, SiteId};
use ordup_world::Setup;
use std::alloc::Allocator;

/// How many objects there are.
pub(crate) const OBJECT_COUNT: u8 = 16;
/// How many sites there are.
pub(crate) const SITE_COUNT: u8 = 4;
/// How many updates the feed of a site holds.
const CAPACITY: u64 = 4;

/// 16 objects at 0, a group of the first four of them, and 4 sites with their limits. Names are single letters.
pub(crate) fn declare<A: Allocator + Copy>(
    setup: &mut Setup<A>,
    kind: Kind,
) -> Result<(), Refusal> {
    for index in 0..OBJECT_COUNT {
        setup.object(&[b'a' + index], 0)?;
    }
    let members = [
        ObjectId::new(0),
        ObjectId::new(1),
        ObjectId::new(2),
        ObjectId::new(3),
    ];
    let group = setup.group(b"a", &members)?;
    for index in 0..SITE_COUNT {
        let site = setup.site(&[b'a' + index], CAPACITY)?;
        declare_limits(setup, site, group, kind.lags(site))?;
    }
    Ok(())
}

/// A limit on an object, on the group, on all objects and on the count of updates. Wide ones are never passed.
fn declare_limits<A: Allocator + Copy>(
    setup: &mut Setup<A>,
    site: SiteId,
    group: GroupId,
    are_wide: bool,
) -> Result<(), Refusal> {
    let amounts = if are_wide {
        [GREATEST_AMOUNT; 4]
    } else {
        [2_000, 3_000, 5_000, 6]
    };
    setup.limit(site, Scope::Object(ObjectId::new(0)), amounts[0])?;
    setup.limit(site, Scope::Group(group), amounts[1])?;
    setup.limit(site, Scope::All, amounts[2])?;
    setup.limit(site, Scope::Count, amounts[3])?;
    Ok(())
}
