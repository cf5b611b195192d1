ghost use Rattle.std.specs.Prelude.{◌≡◌, None, Some, IfOk, IfErr, length};
ghost use Rattle.ordup_log.specs.Spans.{IsScopeKnown};
ghost use Rattle.ordup_shapes.specs.Scopes.{code_refusal, id_of, kind_of, scope_of};

use ordup_limits::check_scope;
use ordup_log::{GroupId, Groups, Scope};
use ordup_objects::{ObjectId, ObjectTable, Refusal};

/// One object.
pub const OF_OBJECT: u32 = 0;
/// A group.
pub const OF_GROUP: u32 = 1;
/// All objects.
pub const OF_ALL: u32 = 2;
/// The number of updates.
pub const OF_COUNT: u32 = 3;

// promise scope known allowed refused: a scope that crosses from C is that of its kind and number, or refused
/// The scope of this kind, on the object or group of this number.
///
/// It is refused `Syntax` for a kind that is none, and else as `check_scope` is.
pub fn read_scope(
    objects: &ObjectTable,
    groups: &Groups,
    kind: u32,
    id: u32,
) -> Result<Scope, Refusal>
    ensures scope { IfOk result (λ scope. scope ≡ scope_of kind id) }
    ensures known { IfOk result (λ scope. IsScopeKnown (length objects.now) groups.now scope) }
    ensures allowed { IfOk result (λ _. code_refusal (length objects.now) groups.now kind id ≡ None) }
    ensures refused { IfErr result (λ e. code_refusal (length objects.now) groups.now kind id ≡ Some e) }
{
    if kind == OF_OBJECT {
        if id as usize >= objects.len() {
            return Err(Refusal::UnknownObject);
        }
        return Ok(Scope::Object(ObjectId::new(id as u16)));
    }
    if kind == OF_GROUP {
        if id as usize >= groups.len() {
            return Err(Refusal::UnknownGroup);
        }
        return Ok(Scope::Group(GroupId::new(id as u8)));
    }
    if kind == OF_ALL {
        return Ok(Scope::All);
    }
    if kind == OF_COUNT {
        return Ok(Scope::Count);
    }
    Err(Refusal::Syntax)
}

// promise: a scope that crosses to C has its kind and number
/// The kind of a scope.
pub fn kind_of(scope: Scope) -> u32
    ensures { result ≡ kind_of scope }
{
    match scope {
        Scope::Object(_) => OF_OBJECT,
        Scope::Group(_) => OF_GROUP,
        Scope::All => OF_ALL,
        Scope::Count => OF_COUNT,
    }
}

// promise: as kind_of
/// The number of its object or group, or 0.
pub fn id_of(scope: Scope) -> u32
    ensures { result ≡ id_of scope }
{
    match scope {
        Scope::Object(object) => object.index() as u32,
        Scope::Group(group) => group.index() as u32,
        Scope::All | Scope::Count => 0,
    }
}
