ghost use Rattle.std.specs.Prelude.{◌≡◌, ◌==◌, ◌≤◌, ◌<◌};
ghost use Rattle.std.specs.Int.{bit_at};
ghost use Rattle.ordup_objects.specs.Sizes.{most_sites};
ghost use Rattle.ordup_primary.specs.Settling.{where_below};

use crate::site_list::SiteList;
use ordup_objects::SiteId;

/// The sites below `count` whose bits are in the mask.
pub(crate) fn sites_among(mask: u64, count: usize) -> SiteList
    requires { count ≤ most_sites }
    ensures { result ≡ where_below (λ s. bit_at mask s == 1) count }
{
    let mut sites = SiteList::new();
    // An update seldom forces a site.
    if mask == 0 {
        return sites;
    }
    for index in 0..count {
        if has_bit(mask, index) {
            sites.push(SiteId::new(index as u8));
        }
    }
    sites
}

/// Whether the bit of a site is in the mask.
pub(crate) fn has_bit(mask: u64, index: usize) -> bool
    requires { index < 64 }
    ensures { result ≡ (bit_at mask index == 1) }
{
    mask >> index & 1 == 1
}
