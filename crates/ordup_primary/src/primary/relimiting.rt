//! How a limit of a site changes.
ghost use Rattle.std.specs.Prelude.{◌≡◌, ◌+◌, ◌<◌, None, Some, length, IfOk, OnOk, IfErr};
ghost use Rattle.ordup_objects.specs.Refusals.{IsRefusal};

use crate::primary::Primary;
use ordup_limits::Scope;
use ordup_objects::{Refusal, SiteId};
use std::alloc::Allocator;

impl<A: Allocator + Copy> Primary<A> {
    ghost use Rattle.ordup_log.specs.Spans.{span, IsScopeKnown};
    ghost use Rattle.ordup_primary.specs.Primaries.{IsPrimary, progress_at, relimit_refusal, relimited};

    // promise place changed allowed refused err sound: a limit changes from the head on; what was decided stays
    /// Changes the limit of a site on a scope from the head on, or begins one there. It returns the place of the head.
    ///
    /// The limits that were in force at a place when it was decided stay so. It is refused `UnknownObject`, `UnknownGroup`,
    /// `OutOfRange` for the amount, `TooMany` for a 65th scope or a 1,089th entry of the site, `HeadPending` where the head is
    /// decided and not acknowledged, `LagOver` where the acknowledged updates that the site has not reported weigh more than
    /// the amount, and `NoMemory`.
    pub fn relimit(&mut self, site: SiteId, scope: Scope, amount: u64) -> Result<u64, Refusal>
        requires { site < length self.old.sites }
        ensures place { IfOk result (λ k. k ≡ self.old.acked + 1) }
        ensures changed { IfOk result (λ _. self.new ≡ relimited self.old site scope amount) }
        ensures allowed { IfOk result (λ _. relimit_refusal self.old site scope amount ≡ None) }
        ensures refused { IfErr result (λ e. IsRefusal (relimit_refusal self.old site scope amount) e) }
        ensures err { IfErr result (λ _. self.new ≡ self.old) }
        ensures sound { IsPrimary self.new }
    {
        self.keeps();
        self.check_relimit(site, &scope, amount)?;
        let put = self.put_limit(site, &scope, amount);
        self.keeps();
        put?;
        Ok(self.acked + 1)
    }

    /// Tests whether a change of a limit is allowed.
    fn check_relimit(&self, site: SiteId, scope: &Scope, amount: u64) -> Result<(), Refusal>
        requires { site < length self.now.sites }
        ensures known { OnOk result (IsScopeKnown (length self.now.setup.objects) self.now.setup.groups scope.now) }
        ensures allowed { OnOk result (relimit_refusal self.now site scope.now amount ≡ None) }
        ensures refused { IfErr result (λ e. relimit_refusal self.now site scope.now amount ≡ Some e) }
    {
        let setup = &self.setup;
        let limits = &self.limits[site.index()];
        let head = self.acked + 1;
        limits.check_change(setup.objects(), setup.groups(), *scope, amount, head)?;
        if self.acked != self.decided {
            return Err(Refusal::HeadPending);
        }
        if self.lag_on(site, scope) > amount {
            return Err(Refusal::LagOver);
        }
        Ok(())
    }

    /// The weight on a scope of the acknowledged updates that a site has not reported.
    fn lag_on(&self, site: SiteId, scope: &Scope) -> u64
        requires site { site < length self.now.sites }
        requires known { IsScopeKnown (length self.now.setup.objects) self.now.setup.groups scope.now }
        ensures { result ≡ span self.now.log self.now.setup.groups scope.now (progress_at self.now site).reported self.now.acked }
    {
        let reported = self.reported(site);
        if reported >= self.acked {
            return 0;
        }
        self.log
            .span(*scope, self.setup.groups(), reported, self.acked)
    }

    /// Changes the limit of a site on a scope from the head on, where that is allowed. The only refusal is `NoMemory`.
    fn put_limit(&mut self, site: SiteId, scope: &Scope, amount: u64) -> Result<(), Refusal>
        requires site { site < length self.old.sites }
        requires known { IsScopeKnown (length self.old.setup.objects) self.old.setup.groups scope.now }
        requires allowed { relimit_refusal self.old site scope.now amount ≡ None }
        ensures changed { OnOk result (self.new ≡ relimited self.old site scope.now amount) }
        ensures refused { IfErr result (λ e. e ≡ Refusal.NoMemory) }
        ensures err { IfErr result (λ _. self.new ≡ self.old) }
    {
        let head = self.acked + 1;
        let index = site.index();
        self.limits[index].keeps();
        let (objects, groups) = (self.setup.objects(), self.setup.groups());
        let Ok(()) = self.limits[index].change(objects, groups, *scope, amount, head) else {
            return Err(Refusal::NoMemory);
        };
        self.ledger.change(&self.log, groups, site, *scope, amount);
        Ok(())
    }
}
