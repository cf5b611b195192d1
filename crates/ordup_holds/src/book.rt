ghost use Rattle.std.specs.Prelude.{◌≡◌, ◌≤◌, ◌<◌, ℕ, true, All, length};
ghost use Rattle.ordup_primary.specs.Primaries.{IsPrimary, HasFewestRounds, is_lag_within, progress_at};
ghost use Rattle.ordup_holds.specs.Books.{KeepsBook, AreSpareValues};

use crate::sides::SendSide;
use ordup_feed::{SendEnd, Sends};
use ordup_limits::later_spans_keep_limits;
use ordup_objects::Values;
use ordup_primary::Primary;
use std::marker::Model;

// promise: just what counts as sent was pushed; no site reported more than its end knows
/// What lies under the lock of the primary: the primary, and the sender's end of each site's feed in order of declaration.
#[derive(Drop)]
pub struct Book<E: Sends = SendEnd> {
    pub(crate) primary: Primary,
    pub(crate) ends: Vec<SendSide<E>>,
    /// The initial values of the objects once for each site, to which the log is applied again at the end.
    spare_values: Vec<Values>,
}

impl<E: Sends> Model for Book<E> {
    ghost use Rattle.ordup_holds.specs.Books.{BookState};

    ghost Value = { BookState };

    ghost view = { λ s. record { primary = s.primary; ends = s.ends.items } };

    ghost use Rattle.ordup_holds.specs.Books.{KeepsParts};

    ghost invariant = { λ s. KeepsParts s.primary s.ends.items s.spare_values.items };
}

impl<E: Sends> Book<E> {
    /// A book of a primary, with the end of each site's feed and the initial values once for each site.
    pub(crate) fn new(
        primary: Primary,
        ends: Vec<SendSide<E>>,
        spare_values: Vec<Values>,
    ) -> Book<E>
        requires ends { KeepsBook primary ends.items }
        requires spare { AreSpareValues primary spare_values.items }
        ensures { result ≡ record { primary = primary; ends = ends.items } }
    {
        Book {
            primary,
            ends,
            spare_values,
        }
    }

    // promise sound fewest within: the primary of a free book is sound with the fewest rounds; sites that applied what they reported lag
    // within limits; no wrong body: what the type keeps
    // promise kept: as Book
    /// The primary.
    pub fn primary(&self) -> &Primary
        ensures primary { result.now ≡ self.now.primary }
        // What each book keeps: the feeds belong to the primary, the primary is sound, each site's rounds are the fewest, and
        // where a site applied at least what it reported, the acknowledged updates that it has not applied keep its limits,
        // as they are now.
        ensures kept { KeepsBook self.now.primary self.now.ends }
        ensures sound { IsPrimary self.now.primary }
        ensures fewest { HasFewestRounds self.now.primary }
        ensures within { (s applied : ℕ) → s < length self.now.primary.sites → (progress_at self.now.primary s).reported ≤ applied → is_lag_within self.now.primary s applied ≡ true }
    {
        later_spans_keep_limits();
        self.primary.keeps();
        &self.primary
    }

    /// The primary, and the initial values of its objects once for each site.
    pub fn into_parts(self) -> (Primary, Vec<Values>)
        ensures primary { result.0 ≡ self.primary }
        ensures spare { AreSpareValues result.0 result.1.items }
        ensures sound { IsPrimary result.0 }
        ensures within { (s applied : ℕ) → s < length result.0.sites → (progress_at result.0 s).reported ≤ applied → is_lag_within result.0 s applied ≡ true }
    {
        later_spans_keep_limits();
        self.primary.keeps();
        let Book {
            primary,
            ends,
            spare_values,
        } = self;
        drop(ends);
        (primary, spare_values)
    }

    /// Drops it, by one call, and gives its memory back.
    pub fn discard(self) {
        let Book {
            primary,
            ends,
            spare_values,
        } = self;
        primary.discard();
        drop(ends);
        drop(spare_values);
    }
}
