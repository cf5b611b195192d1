//! What the columns of a row spell.
ghost use Rattle.std.specs.Prelude.{◌≡◌, ◌++◌, ◌<◌, IfSome, OnOk, length};
ghost use Rattle.std.specs.Fmt.{signed_decimal};
ghost use Rattle.ordup_objects.specs.Ops.{source_of};
ghost use Rattle.ordup_log.specs.Spans.{IsScopeKnown};
ghost use Rattle.ordup_rows.specs.Rows.{amount_text, change_word, operation_text, scope_text};

use crate::version::Version;
use itoa::Buffer;
use ordup_limits::{Groups, LimitEntry, Scope};
use ordup_objects::{ObjectTable, Op};
use std::alloc::{AllocError, Allocator};

/// Fills a column with the text of a scope.
pub fn put_scope<A: Allocator + Copy>(
    column: &mut Vec<u8, A>,
    objects: &ObjectTable<A>,
    groups: &Groups<A>,
    scope: Scope,
) -> Result<(), AllocError>
    requires { IsScopeKnown (length objects.now) groups.now scope }
    ensures { OnOk result (column.new.items ≡ scope_text objects.now groups.now scope) }
{
    column.clear();
    match scope {
        Scope::Object(object) => {
            column.extend_from_slice(b"object:")?;
            column.extend_from_slice(objects.name(object).as_bytes())
        }
        Scope::Group(group) => {
            column.extend_from_slice(b"group:")?;
            column.extend_from_slice(groups.name(group).as_bytes())
        }
        Scope::All => column.extend_from_slice(b"all"),
        Scope::Count => column.extend_from_slice(b"count"),
    }
}

/// Adds to a column the amount of a limit, and in the second version the place from which it holds.
pub fn add_amount<A: Allocator + Copy>(
    column: &mut Vec<u8, A>,
    version: Version,
    entry: &LimitEntry,
) -> Result<(), AllocError>
    ensures { OnOk result (column.new.items ≡ column.old.items ++ amount_text version entry.now) }
{
    let mut amount_digits = Buffer::new();
    let amount = amount_digits.format(entry.limit.amount);
    column.extend_from_slice(amount.as_bytes())?;
    match version {
        Version::First => Ok(()),
        Version::Second => {
            let mut place_digits = Buffer::new();
            let place = place_digits.format(entry.place);
            column.push(b'@')?;
            column.extend_from_slice(place.as_bytes())
        }
    }
}

/// Fills a column with the three parts of the word of a change, with a colon between each two.
fn put_word<A: Allocator + Copy>(
    column: &mut Vec<u8, A>,
    kind: &[u8],
    object: &[u8],
    operand: &[u8],
) -> Result<(), AllocError>
    ensures { OnOk result (column.new.items ≡ change_word kind.now object.now operand.now) }
{
    column.clear();
    column.extend_from_slice(kind)?;
    column.push(b':')?;
    column.extend_from_slice(object)?;
    column.push(b':')?;
    column.extend_from_slice(operand)
}

/// Fills a column with the word of a change by a number.
fn put_number_word<A: Allocator + Copy>(
    column: &mut Vec<u8, A>,
    kind: &[u8],
    object: &[u8],
    number: i64,
) -> Result<(), AllocError>
    ensures { OnOk result (column.new.items ≡ change_word kind.now object.now (signed_decimal number)) }
{
    let mut digits = Buffer::new();
    put_word(column, kind, object, digits.format(number).as_bytes())
}

/// Fills a column with the word of a change, by the name of its object and its operation.
pub fn put_change<A: Allocator + Copy>(
    column: &mut Vec<u8, A>,
    objects: &ObjectTable<A>,
    object: &[u8],
    op: Op,
) -> Result<(), AllocError>
    requires { IfSome (source_of op) (λ y. y < length objects.now) }
    ensures { OnOk result (column.new.items ≡ operation_text objects.now object.now op) }
{
    match op {
        Op::Add(n) => put_number_word(column, b"add", object, n),
        Op::Set(n) => put_number_word(column, b"set", object, n),
        Op::Mul(n) => put_number_word(column, b"mul", object, n),
        Op::Max(n) => put_number_word(column, b"max", object, n),
        Op::Min(n) => put_number_word(column, b"min", object, n),
        Op::Take(source) => put_word(column, b"take", object, objects.name(source).as_bytes()),
    }
}
