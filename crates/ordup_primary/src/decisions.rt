ghost use Rattle.std.specs.Prelude.{◌≡◌, ◌<◌, ◌≤◌, ◌==◌, ℕ, [], true, false, not, All, OnOk, IfErr, length, map, replicate, slice_index_or};
ghost use Rattle.std.specs.Int.{bit_at};
ghost use Rattle.ordup_objects.specs.Sizes.{most_updates};
ghost use Rattle.ordup_primary.specs.PrimaryInside.{first_kept, kept_at, kept_of, HasSpare, HaveSpare};
ghost use Rattle.ordup_primary.specs.Settling.{last_place};
ghost use Rattle.ordup_primary.specs.declared.progress.Progress.{Progress};

use crate::progress::Progress;
use crate::reports::Reports;
use crate::site_mask::has_bit;
use ordup_objects::Refusal;
use ordup_rounds::Window;
use std::alloc::Allocator;

/// Adds the sites at the start: nothing was sent to them, and nothing is decided.
pub(crate) fn add_sites<A: Allocator + Copy>(
    sites: &mut Vec<Progress<A>, A>,
    alloc: A,
    count: usize,
) -> Result<(), Refusal>
    requires { sites.old.items ≡ [] }
    ensures sites { OnOk result (map kept_of sites.new.items ≡ replicate count first_kept) }
    ensures refused { IfErr result (λ e. e ≡ Refusal.NoMemory) }
{
    sites.reserve(count)?;
    for _site in 0..count {
        let site = Progress {
            sent: 0,
            reported: 0,
            reports: Reports::new(alloc),
            rounds: Vec::new(alloc),
            windows: Vec::new(alloc),
        };
        sites.push(site)?;
    }
    Ok(())
}

/// Reserves the memory in which a decision is put down at the sites whose bits are in the mask.
pub(crate) fn reserve_decision<A: Allocator + Copy>(
    sites: &mut Vec<Progress<A>, A>,
    mask: u64,
) -> Result<(), Refusal>
    requires { (s : ℕ) → (bit_at mask s == 1) ≡ true → s < length sites.old.items }
    ensures same { map kept_of sites.new.items ≡ map kept_of sites.old.items }
    ensures spare { OnOk result (HaveSpare mask sites.new.items) }
    ensures refused { IfErr result (λ e. e ≡ Refusal.NoMemory) }
{
    let mut rest = mask;
    while rest != 0 {
        let index = rest.trailing_zeros() as usize;
        reserve_decision_at(&mut sites[index])?;
        rest &= !(1 << index);
    }
    Ok(())
}

fn reserve_decision_at<A: Allocator + Copy>(site: &mut Progress<A>) -> Result<(), Refusal>
    ensures same { kept_of site.new ≡ kept_of site.old }
    ensures spare { OnOk result (HasSpare site.new) }
    ensures refused { IfErr result (λ e. e ≡ Refusal.NoMemory) }
{
    site.reports.reserve()?;
    site.rounds.reserve(1)?;
    site.windows.reserve(1)?;
    Ok(())
}

/// Puts down the decision of a place: at each site its report, and a round with its window at those that are forced.
///
/// Only the sites whose bits are in the mask are looked at. At the others the decision changes nothing.
pub(crate) fn put_down<A: Allocator + Copy>(
    sites: &mut Vec<Progress<A>, A>,
    mask: u64,
    forced: u64,
    number: u64,
)
    requires there { (s : ℕ) → (bit_at mask s == 1) ≡ true → s < length sites.old.items }
    requires others { (s : ℕ) (d : Progress A) → s < length sites.old.items → (bit_at mask s == 1) ≡ false →
        kept_of (slice_index_or sites.old.items s d) ≡ kept_at (not (bit_at forced s == 1)) number (kept_of (slice_index_or sites.old.items s d)) }
    requires spare { HaveSpare mask sites.old.items }
    requires few { number ≤ most_updates }
    requires reported { All (λ site. site.reported ≤ most_updates) sites.old.items }
    ensures count { length sites.new.items ≡ length sites.old.items }
    ensures sites { (s : ℕ) (d : Progress A) → s < length sites.old.items →
        kept_of (slice_index_or sites.new.items s d) ≡ kept_at (not (bit_at forced s == 1)) number (kept_of (slice_index_or sites.old.items s d)) }
{
    let mut rest = mask;
    while rest != 0 {
        let index = rest.trailing_zeros() as usize;
        let is_forced = has_bit(forced, index);
        put_down_at(&mut sites[index], is_forced, number);
        rest &= !(1 << index);
    }
}

/// Puts down the decision of an update at one site: what the site had reported, and its round and window where it is forced.
fn put_down_at<A: Allocator + Copy>(site: &mut Progress<A>, is_forced: bool, number: u64)
    requires spare { HasSpare site.old }
    requires few { number ≤ most_updates }
    requires reported { site.old.reported ≤ most_updates }
    ensures { kept_of site.new ≡ kept_at (not is_forced) number (kept_of site.old) }
{
    site.reports.push_reserved(number, site.reported);
    if is_forced {
        let window = Window {
            from: site.reported,
            to: number,
        };
        site.windows.push_reserved(window);
        site.rounds.push_reserved(number);
    }
}

/// The last of these places, 0 where there is none.
pub(crate) fn last_place(places: &[u64]) -> u64
    ensures { result ≡ last_place places.now }
{
    places.last().copied().unwrap_or(0)
}
