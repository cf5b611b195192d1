//! Declares in a setup what the declarations of a script say.
ghost use Rattle.ordup_answers.specs.Declaring.{with_declaration};
ghost use Rattle.ordup_answers.specs.Refusals.{Makes};

use crate::names::{find_objects, find_scope, find_site};
use ordup_grammar::{Declaration, Number, ScopeWord, Word, Words};
use ordup_objects::Refusal;
use ordup_world::Setup;
use std::alloc::Allocator;

// promise Makes: a script declares as the setup does, with indexes for names
/// Declares what a declaration says.
///
/// The setup has one declaration more, or it stays and the call is refused for the first reason that applies, or with `NoMemory`.
pub fn declare<A: Allocator + Copy>(
    alloc: A,
    setup: &mut Setup<A>,
    declaration: &Declaration<'_>,
) -> Result<(), Refusal>
    ensures { Makes (with_declaration setup.old declaration.now) setup.old setup.new result }
{
    match declaration {
        Declaration::Object { name, initial } => declare_object(setup, name, *initial),
        Declaration::Group { name, members } => declare_group(alloc, setup, name, members),
        Declaration::Site { name, capacity } => declare_site(setup, name, *capacity),
        Declaration::Limit {
            site,
            scope,
            amount,
        } => declare_limit(setup, site, scope, *amount),
    }
}

/// Declares an object.
fn declare_object<A: Allocator + Copy>(
    setup: &mut Setup<A>,
    name: &Word<'_>,
    initial: Number,
) -> Result<(), Refusal>
    ensures { Makes (with_declaration setup.old (Declaration.Object name.now initial)) setup.old setup.new result }
{
    setup.object(name.as_bytes(), initial.value())?;
    Ok(())
}

/// Declares a group, whose members are what words name.
fn declare_group<A: Allocator + Copy>(
    alloc: A,
    setup: &mut Setup<A>,
    name: &Word<'_>,
    members: &Words<'_>,
) -> Result<(), Refusal>
    ensures { Makes (with_declaration setup.old (Declaration.Group name.now members.now)) setup.old setup.new result }
{
    let Ok(members) = find_objects(alloc, setup.objects(), members) else {
        return Err(Refusal::NoMemory);
    };
    setup.group(name.as_bytes(), &members)?;
    Ok(())
}

/// Declares a site.
fn declare_site<A: Allocator + Copy>(
    setup: &mut Setup<A>,
    name: &Word<'_>,
    capacity: Number,
) -> Result<(), Refusal>
    ensures { Makes (with_declaration setup.old (Declaration.Site name.now capacity)) setup.old setup.new result }
{
    setup.site(name.as_bytes(), capacity.amount())?;
    Ok(())
}

/// Declares a limit of a site.
fn declare_limit<A: Allocator + Copy>(
    setup: &mut Setup<A>,
    site: &Word<'_>,
    scope: &ScopeWord<'_>,
    amount: Number,
) -> Result<(), Refusal>
    ensures { Makes (with_declaration setup.old (Declaration.Limit site.now scope.now amount)) setup.old setup.new result }
{
    let site = find_site(setup, site);
    let scope = find_scope(setup, scope);
    setup.limit(site, scope, amount.amount())
}
