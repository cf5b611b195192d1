//! Which objects, groups and sites words name. A word that names nothing stands for the index after the last one, which each call
//! refuses as unknown in its turn.
ghost use Rattle.std.specs.Prelude.{◌≡◌, IfOk};
ghost use Rattle.ordup_answers.specs.Names.{index_among, indices_among, scope_in};

use ordup_grammar::{ScopeWord, Word, Words};
use ordup_limits::{GroupId, Groups, Scope};
use ordup_objects::{ObjectId, ObjectTable, SiteId};
use ordup_world::Setup;
use std::alloc::{AllocError, Allocator};

/// The object that a word names.
pub(crate) fn find_object<A: Allocator + Copy>(
    objects: &ObjectTable<A>,
    name: &Word<'_>,
) -> ObjectId
    ensures { result ≡ index_among objects.now name.now }
{
    match objects.find(name.as_bytes()) {
        Some(object) => object,
        None => ObjectId::new(objects.len() as u16),
    }
}

/// The group that a word names.
fn find_group<A: Allocator + Copy>(groups: &Groups<A>, name: &Word<'_>) -> GroupId
    ensures { result ≡ index_among groups.now name.now }
{
    match groups.find(name.as_bytes()) {
        Some(group) => group,
        None => GroupId::new(groups.len() as u8),
    }
}

/// The site that a word names.
pub(crate) fn find_site<A: Allocator + Copy>(setup: &Setup<A>, name: &Word<'_>) -> SiteId
    ensures { result ≡ index_among setup.now.sites name.now }
{
    match setup.find_site(name.as_bytes()) {
        Some(site) => site,
        None => SiteId::new(setup.sites() as u8),
    }
}

/// What a limit weighs.
pub(crate) fn find_scope<A: Allocator + Copy>(setup: &Setup<A>, scope: &ScopeWord<'_>) -> Scope
    ensures { result ≡ scope_in setup.now scope.now }
{
    match scope {
        ScopeWord::Object(name) => Scope::Object(find_object(setup.objects(), name)),
        ScopeWord::Group(name) => Scope::Group(find_group(setup.groups(), name)),
        ScopeWord::All => Scope::All,
        ScopeWord::Count => Scope::Count,
    }
}

/// The objects that words name.
pub(crate) fn find_objects<A: Allocator + Copy>(
    alloc: A,
    objects: &ObjectTable<A>,
    names: &Words<'_>,
) -> Result<Vec<ObjectId, A>, AllocError>
    ensures { IfOk result (λ found. found.items ≡ indices_among objects.now names.now) }
{
    let mut found = Vec::new(alloc);
    let mut rest = names.copy();
    while let Some((name, more)) = rest.split_first() {
        found.push(find_object(objects, &name))?;
        rest = more;
    }
    Ok(found)
}
