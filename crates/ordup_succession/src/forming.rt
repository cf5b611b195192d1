//! The lines of declarations.
ghost use Rattle.std.specs.Prelude.{◌≡◌, ◌<◌, ◌++◌, ◌∷◌, [], ℕ, ℤ, List, OnOk, length, map, slice_index_or};
ghost use Rattle.ordup_log.specs.Groups.{AreGroupsKnown, AreMembersKnown};
ghost use Rattle.ordup_log.specs.Spans.{IsScopeKnown};
ghost use Rattle.ordup_limits.specs.Entries.{AreEntriesKnown, latest};
ghost use Rattle.ordup_rows.specs.Rows.{name_at};
ghost use Rattle.ordup_succession.specs.Lines.{lines_text};
ghost use Rattle.ordup_succession.specs.DeclaringLines.{declarations_text, group_words, limit_lines, limit_words, object_lines, object_words};
ghost use Rattle.ordup_succession.specs.DeclaringLines.{scope_words, site_words};
ghost use Rattle.ordup_succession.specs.Spread.{spread};

use ordup_limits::{GroupId, Groups, LimitTable, Scope};
use ordup_objects::{Name, ObjectId, ObjectTable, SiteId};
use ordup_primary::Setup;
use ordup_text::{TextBuffer, push_numbered, push_with_number};
use std::alloc::{AllocError, Allocator};

// promise: the lines of a setup, or of objects and groups, are written
/// Adds the lines that declare what a setup has, and the line that starts its store: the objects, the groups, the sites, and the
/// last limits of each site, in the order in which they were declared.
///
/// It fails only where an allocation was refused.
pub fn push_declarations<A: Allocator + Copy>(
    out: &mut TextBuffer<A>,
    setup: &Setup<A>,
) -> Result<(), AllocError>
    ensures { OnOk result (out.new.text ≡ out.old.text ++ declarations_text setup.now) }
{
    push_object_declarations(out, setup.objects(), setup.groups())?;
    push_sites(out, setup)?;
    push_limits(out, setup)?;
    out.push(b"start\n")
}

// promise: as push_declarations
/// Adds the lines that declare objects and groups of them. It fails only where an allocation was refused.
pub fn push_object_declarations<A: Allocator + Copy>(
    out: &mut TextBuffer<A>,
    objects: &ObjectTable<A>,
    groups: &Groups<A>,
) -> Result<(), AllocError>
    requires { AreGroupsKnown (length objects.now) groups.now }
    ensures { OnOk result (out.new.text ≡ out.old.text ++ lines_text (object_lines objects.now groups.now)) }
{
    push_objects(out, objects)?;
    push_groups(out, objects, groups)
}

/// Adds the lines of the objects.
fn push_objects<A: Allocator + Copy>(
    out: &mut TextBuffer<A>,
    objects: &ObjectTable<A>,
) -> Result<(), AllocError>
    ensures { OnOk result (out.new.text ≡ out.old.text ++ lines_text (map object_words objects.now)) }
{
    for index in 0..objects.len() {
        push_object(out, objects, ObjectId::new(index as u16))?;
    }
    Ok(())
}

/// Adds `object N V`.
fn push_object<A: Allocator + Copy>(
    out: &mut TextBuffer<A>,
    objects: &ObjectTable<A>,
    object: ObjectId,
) -> Result<(), AllocError>
    requires { object < length objects.now }
    ensures { (d : List ℕ × ℤ) → OnOk result (out.new.text ≡ out.old.text ++ lines_text (object_words (slice_index_or objects.now object d) ∷ [])) }
{
    out.push(b"object ")?;
    out.push(objects.name(object).as_bytes())?;
    out.push(b" ")?;
    out.push_value(objects.initial(object))?;
    out.push(b"\n")
}

/// Adds the lines of the groups.
fn push_groups<A: Allocator + Copy>(
    out: &mut TextBuffer<A>,
    objects: &ObjectTable<A>,
    groups: &Groups<A>,
) -> Result<(), AllocError>
    requires { AreGroupsKnown (length objects.now) groups.now }
    ensures { OnOk result (out.new.text ≡ out.old.text ++ lines_text (map (group_words objects.now) groups.now)) }
{
    for index in 0..groups.len() {
        let group = GroupId::new(index as u8);
        push_group(out, objects, groups.name(group), groups.members(group))?;
    }
    Ok(())
}

/// Adds `group G X ..`.
fn push_group<A: Allocator + Copy>(
    out: &mut TextBuffer<A>,
    objects: &ObjectTable<A>,
    name: &Name,
    members: &[ObjectId],
) -> Result<(), AllocError>
    requires { AreMembersKnown (length objects.now) members.now }
    ensures { OnOk result (out.new.text ≡ out.old.text ++ lines_text (group_words objects.now (name.now, members.now) ∷ [])) }
{
    out.push(b"group ")?;
    out.push(name.as_bytes())?;
    push_members(out, objects, members)?;
    out.push(b"\n")
}

/// Adds ` X` for each of these objects.
fn push_members<A: Allocator + Copy>(
    out: &mut TextBuffer<A>,
    objects: &ObjectTable<A>,
    members: &[ObjectId],
) -> Result<(), AllocError>
    requires { AreMembersKnown (length objects.now) members.now }
    ensures { OnOk result (out.new.text ≡ out.old.text ++ spread (map (name_at objects.now) members.now)) }
{
    for object in members {
        push_word(out, objects.name(*object))?;
    }
    Ok(())
}

/// Adds a space and a name.
fn push_word<A: Allocator + Copy>(out: &mut TextBuffer<A>, name: &Name) -> Result<(), AllocError>
    ensures { OnOk result (out.new.text ≡ out.old.text ++ spread (name.now ∷ [])) }
{
    out.push(b" ")?;
    out.push(name.as_bytes())
}

/// Adds the lines of the sites.
fn push_sites<A: Allocator + Copy>(
    out: &mut TextBuffer<A>,
    setup: &Setup<A>,
) -> Result<(), AllocError>
    ensures { OnOk result (out.new.text ≡ out.old.text ++ lines_text (map site_words setup.now.sites)) }
{
    for index in 0..setup.sites() {
        let site = SiteId::new(index as u8);
        let name = setup.site_name(site).as_bytes();
        push_numbered(out, b"site ", name, setup.capacity(site))?;
    }
    Ok(())
}

/// Adds the lines of the last limits of each site.
fn push_limits<A: Allocator + Copy>(
    out: &mut TextBuffer<A>,
    setup: &Setup<A>,
) -> Result<(), AllocError>
    ensures { OnOk result (out.new.text ≡ out.old.text ++ lines_text (limit_lines setup.now.objects setup.now.groups setup.now.sites setup.now.limits)) }
{
    for index in 0..setup.sites() {
        let site = SiteId::new(index as u8);
        push_limits_of(
            out,
            setup.objects(),
            setup.groups(),
            setup.site_name(site),
            setup.limits(site),
        )?;
    }
    Ok(())
}

/// Adds the lines of the last limits of a site.
fn push_limits_of<A: Allocator + Copy>(
    out: &mut TextBuffer<A>,
    objects: &ObjectTable<A>,
    groups: &Groups<A>,
    site: &Name,
    limits: &LimitTable<A>,
) -> Result<(), AllocError>
    requires { AreEntriesKnown (length objects.now) groups.now limits.now }
    ensures { OnOk result (out.new.text ≡ out.old.text ++ lines_text (map (limit_words objects.now groups.now site.now) (latest limits.now))) }
{
    for index in 0..limits.len() {
        let (scope, amount) = limits.get(index);
        push_limit(out, objects, groups, site, &scope, amount)?;
    }
    Ok(())
}

/// Adds `limit S object X N`, `limit S group G N`, `limit S all N` or `limit S count N`.
fn push_limit<A: Allocator + Copy>(
    out: &mut TextBuffer<A>,
    objects: &ObjectTable<A>,
    groups: &Groups<A>,
    site: &Name,
    scope: &Scope,
    amount: u64,
) -> Result<(), AllocError>
    requires { IsScopeKnown (length objects.now) groups.now scope.now }
    ensures { OnOk result (out.new.text ≡ out.old.text ++ lines_text (limit_words objects.now groups.now site.now (record { scope = scope.now; amount = amount }) ∷ [])) }
{
    out.push(b"limit ")?;
    out.push(site.as_bytes())?;
    push_scope(out, objects, groups, scope)?;
    push_with_number(out, b" ", amount)?;
    out.push(b"\n")
}

/// Adds ` object X`, ` group G`, ` all` or ` count`.
fn push_scope<A: Allocator + Copy>(
    out: &mut TextBuffer<A>,
    objects: &ObjectTable<A>,
    groups: &Groups<A>,
    scope: &Scope,
) -> Result<(), AllocError>
    requires { IsScopeKnown (length objects.now) groups.now scope.now }
    ensures { OnOk result (out.new.text ≡ out.old.text ++ spread (scope_words objects.now groups.now scope.now)) }
{
    match scope {
        Scope::Object(object) => {
            out.push(b" object")?;
            push_word(out, objects.name(*object))
        }
        Scope::Group(group) => {
            out.push(b" group")?;
            push_word(out, groups.name(*group))
        }
        Scope::All => out.push(b" all"),
        Scope::Count => out.push(b" count"),
    }
}
