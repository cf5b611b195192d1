//! What a place is: whether it has a round, and which window has it.

ghost use Rattle.std.specs.Prelude.{◌≡◌, ◌+◌, ◌==◌, option_map};
ghost use Rattle.std.specs.List.{list_any, position};
ghost use Rattle.std.specs.List.Sorted.{IsStrictlyIncreasing};
ghost use Rattle.ordup_lag.specs.LagRows.{has_place, AreApart};

use ordup_rounds::Window;

/// Whether one of these rounds is at a place.
pub(crate) fn has_round(rounds: &[u64], place: u64) -> bool
    requires { IsStrictlyIncreasing rounds.now }
    ensures { result ≡ list_any (λ p. p == place) rounds.now }
{
    let before = rounds.partition_point(|round| *round < place);
    before < rounds.len() && rounds[before] == place
}

/// The number of the window that has a place, counted from 1, if there is one.
pub(crate) fn window_of(windows: &[Window], place: u64) -> Option<u64>
    requires { AreApart windows.now }
    ensures { result ≡ option_map (λ i. i + 1) (position (has_place place) windows.now) }
{
    let before = windows.partition_point(|window| window.to < place);
    if before < windows.len() && windows[before].from < place {
        return Some(before as u64 + 1);
    }
    None
}
