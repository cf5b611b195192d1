ghost use Rattle.std.specs.Prelude.{◌≡◌, ◌+◌, None, IfOk, IfErr, OnErr};
ghost use Rattle.ordup_objects.specs.Refusals.{IsRefusal};
ghost use Rattle.ordup_primary.specs.LimitChanges.{limit_change_refusal};
ghost use Rattle.ordup_primary.specs.Primaries.{IsPrimary, site_view};
ghost use Rattle.ordup_holds.specs.Relimiting.{with_changed_limit};

use crate::book::Book;
use ordup_feed::Sends;
use ordup_limits::check_scope;
use ordup_log::Scope;
use ordup_objects::{Refusal, SiteId};

// promise place changed allowed refused err sound: a limit changes as by the primary; scope and site are refused first
/// Changes the limit of a site on a scope from the head of a book on, or begins one there, whose amount lies from 0 to 10^18. It
/// answers the place of the head.
///
/// It is refused `UnknownObject` or `UnknownGroup` where the scope's is not there, `UnknownSite`, `OutOfRange` for the amount,
/// `TooMany` for a 65th scope or a 1,089th entry of the site, `HeadPending` where the head is decided and not acknowledged,
/// `LagOver` where the acknowledged updates that the site has not reported weigh more than the amount, and `NoMemory`. What the
/// site reported is what the book knows: there is no look before.
pub fn relimit<E: Sends>(
    book: &mut Book<E>,
    site: SiteId,
    scope: Scope,
    amount: u64,
) -> Result<u64, Refusal>
    ensures place { IfOk result (λ k. k ≡ book.old.primary.acked + 1) }
    ensures changed { IfOk result (λ _. book.new ≡ with_changed_limit book.old site scope amount) }
    ensures allowed { IfOk result (λ _. limit_change_refusal (site_view book.old.primary site) scope amount ≡ None) }
    ensures refused { IfErr result (λ e. IsRefusal (limit_change_refusal (site_view book.old.primary site) scope amount) e) }
    ensures err { OnErr result (book.new ≡ book.old) }
    // What each book keeps: its primary is sound.
    ensures sound { IsPrimary book.old.primary }
{
    // The prover joins branches over a borrowed scope, not over a copied one.
    let scope = &scope;
    book.primary.keeps();
    let setup = book.primary.setup();
    check_scope(setup.objects(), setup.groups(), *scope)?;
    if site.index() >= setup.sites() {
        return Err(Refusal::UnknownSite);
    }
    let place = book.primary.relimit(site, *scope, amount)?;
    Ok(place)
}
