//! The columns of a row, and what they spell.
ghost use Rattle.std.specs.Prelude.{◌≡◌, ◌==◌, option_map};
ghost use Rattle.std.specs.List.{position, slice_split};
ghost use Rattle.csv.specs.Records.{fields_of};
ghost use Rattle.ordup_rows.specs.Columns.{columns_of, amount_and_place, amount_by, is_number, natural_of, writes, scope_of};
ghost use Rattle.ordup_check.specs.ColumnViews.{columns_at, columns_view, value_of, number_in_range, op_in_range, change_in_range};

use csv::ByteRecord;
use ordup_grammar::{ChangeWord, Number, Operation, Word};
use ordup_limits::{Groups, Scope};
use ordup_objects::sizes::GREATEST_VALUE;
use ordup_objects::{Change, ObjectTable, Op};
use ordup_rows::Version;

/// The four columns of a row.
#[derive(Clone, Copy)]
pub struct RowColumns<'a> {
    pub kind: &'a [u8],
    pub first: &'a [u8],
    pub second: &'a [u8],
    pub third: &'a [u8],
}

impl<'a> RowColumns<'a> {
    /// The columns of a row, where there are four.
    pub fn split(row: &'a ByteRecord) -> Option<RowColumns<'a>>
        ensures { option_map columns_view result ≡ columns_of (fields_of row.now) }
    {
        RowColumns::at_places(row)
    }

    /// The columns of a row of four, each at its place.
    fn at_places(row: &'a ByteRecord) -> Option<RowColumns<'a>>
        ensures { option_map columns_view result ≡ columns_at (fields_of row.now) }
    {
        if row.len() != 4 {
            return None;
        }
        let kind = row.get(0)?;
        let first = row.get(1)?;
        let second = row.get(2)?;
        let third = row.get(3)?;
        Some(RowColumns {
            kind,
            first,
            second,
            third,
        })
    }
}

/// The number that a column writes, where it has no minus.
pub fn natural(column: &[u8]) -> Option<u64>
    ensures { result ≡ natural_of column.now }
{
    let number = Number::parse(column)?.amount();
    if number == u64::MAX {
        return None;
    }
    Some(number)
}

/// Whether a column writes this number.
pub fn writes(column: &[u8], number: u64) -> bool
    ensures { result ≡ writes column.now number }
{
    is_number(number, natural(column))
}

/// Whether this number was found in a column.
pub fn is_number(number: u64, found: Option<u64>) -> bool
    ensures { result ≡ is_number number found }
{
    match found {
        Some(found) => found == number,
        None => false,
    }
}

/// The value that a column writes, where it is in range.
pub fn value(column: &[u8]) -> Option<i64>
    ensures { result ≡ value_of column.now }
{
    in_range(Number::parse(column)?)
}

/// The value of a number, where it is in range.
fn in_range(number: Number) -> Option<i64>
    ensures { result ≡ number_in_range number }
{
    let value = number.value();
    if value.unsigned_abs() > GREATEST_VALUE {
        return None;
    }
    Some(value)
}

/// The scope that a column spells.
pub fn scope(objects: &ObjectTable, groups: &Groups, column: &[u8]) -> Option<Scope>
    ensures { result ≡ scope_of objects.now groups.now column.now }
{
    if let Some(name) = column.strip_prefix(b"object:") {
        return Some(Scope::Object(objects.find(name)?));
    }
    if let Some(name) = column.strip_prefix(b"group:") {
        return Some(Scope::Group(groups.find(name)?));
    }
    if column == b"all".as_slice() {
        Some(Scope::All)
    } else if column == b"count".as_slice() {
        Some(Scope::Count)
    } else {
        None
    }
}

/// The amount of a limit and the place from which it holds, by its column in rows of a version.
pub fn amount(version: Version, column: &[u8]) -> Option<(u64, u64)>
    ensures { result ≡ amount_by version column.now }
{
    match version {
        Version::First => Some((natural(column)?, 1)),
        Version::Second => amount_and_place(column),
    }
}

/// The two numbers that a column writes, with one `@` between them.
fn amount_and_place(column: &[u8]) -> Option<(u64, u64)>
    ensures { result ≡ amount_and_place (slice_split (λ byte. byte == 64) column.now) }
{
    let end = index_of_at(column)?;
    let amount = natural(&column[..end])?;
    let place = natural(&column[end + 1..])?;
    Some((amount, place))
}

/// The index of the first `@` of a column, if there is one.
fn index_of_at(column: &[u8]) -> Option<usize>
    ensures { result ≡ position (λ byte. byte == 64) column.now }
{
    column.iter().position(|byte| *byte == b'@')
}

/// The operation of a change word, where its number is in range and the object that it reads is declared.
fn op(objects: &ObjectTable, operation: &Operation<'_>) -> Option<Op>
    ensures { result ≡ op_in_range objects.now operation.now }
{
    match operation {
        Operation::WithNumber(kind, number) => Some(kind.with(in_range(*number)?)),
        Operation::Take(name) => Some(Op::Take(objects.find(name.as_bytes())?)),
    }
}

/// The change that a column spells, where its number is in range and its objects are declared.
pub fn change(objects: &ObjectTable, column: &[u8]) -> Option<Change>
    ensures { result ≡ change_in_range objects.now column.now }
{
    let word = ChangeWord::parse(&Word::new(column))?;
    let object = objects.find(word.object.as_bytes())?;
    let op = op(objects, &word.operation)?;
    Some(Change { object, op })
}
