//! Lines of text: a text that says what was done, and then names, numbers and values.
//!
//! What puts takes the spare capacity that it needs as given. What pushes reserves it first.
ghost use Rattle.std.specs.Prelude.{◌≡◌, ◌+◌, ◌*◌, ◌≤◌, ◌++◌, OnOk, length};
ghost use Rattle.std.specs.Fmt.{decimal, signed_decimal};
ghost use Rattle.ordup_text.specs.Lines.{named_text, done_text, numbered_text, value_text, values_text};
ghost use Rattle.ordup_text.specs.declared.text_buffer.TheConstants.{MOST_DIGITS};
ghost use Rattle.ordup_text.specs.declared.lines.TheConstants.{MOST_VALUE_BYTES};

use crate::text_buffer::{MOST_DIGITS, TextBuffer};
use ordup_objects::{Name, ObjectId, ObjectTable};
use std::alloc::{AllocError, Allocator};

/// The most bytes of ` X=V`.
pub const MOST_VALUE_BYTES: usize = 39;

// promise: as put_named
/// Puts a text and a number. They must fit into the spare capacity.
// Inlined, so that the length of the text is known where it is copied.
#[inline(always)]
pub fn put_with_number<A: Allocator + Copy>(out: &mut TextBuffer<A>, text: &[u8], number: u64)
    requires { length text.now + MOST_DIGITS ≤ out.old.spare }
    ensures text { out.new.text ≡ out.old.text ++ (text.now ++ decimal number) }
    ensures spare { out.old.spare ≤ out.new.spare + length text.now + MOST_DIGITS }
{
    out.put(text);
    out.put_number(number);
}

// promise: as put_named
/// Adds a text and a number.
// Inlined, so that the length of the text is known where it is copied.
#[inline(always)]
pub fn push_with_number<A: Allocator + Copy>(
    out: &mut TextBuffer<A>,
    text: &[u8],
    number: u64,
) -> Result<(), AllocError>
    ensures { OnOk result (out.new.text ≡ out.old.text ++ (text.now ++ decimal number)) }
{
    out.push(text)?;
    out.push_number(number)
}

// promise: as put_named
/// Puts a text and a value. They must fit into the spare capacity.
// Inlined, so that the length of the text is known where it is copied.
#[inline(always)]
pub fn put_with_value<A: Allocator + Copy>(out: &mut TextBuffer<A>, text: &[u8], value: i64)
    requires { length text.now + MOST_DIGITS + 1 ≤ out.old.spare }
    ensures text { out.new.text ≡ out.old.text ++ (text.now ++ signed_decimal value) }
    ensures spare { out.old.spare ≤ out.new.spare + length text.now + MOST_DIGITS + 1 }
{
    out.put(text);
    out.put_value(value);
}

// promise: a line says what was done, and a name, a number, or values
/// Puts a line: what was done, and a name. It must fit into the spare capacity.
pub fn put_named<A: Allocator + Copy>(out: &mut TextBuffer<A>, done: &[u8], name: &[u8])
    requires { length done.now + length name.now + 1 ≤ out.old.spare }
    ensures { out.new.text ≡ out.old.text ++ named_text done.now name.now }
{
    out.put(done);
    out.put_name(name);
    out.put(b"\n");
}

// promise: as put_named
/// Puts a line: what was done, and a number. It must fit into the spare capacity.
#[inline(always)]
pub fn put_done<A: Allocator + Copy, const N: usize>(
    out: &mut TextBuffer<A>,
    done: &[u8; N],
    number: u64,
)
    requires { N + MOST_DIGITS + 1 ≤ out.old.spare }
    ensures { out.new.text ≡ out.old.text ++ done_text done.now number }
{
    out.put(done);
    out.put_number(number);
    out.put(b"\n");
}

// promise: as put_named
/// Adds a line: what was done, and a number.
#[inline(always)]
pub fn push_done<A: Allocator + Copy, const N: usize>(
    out: &mut TextBuffer<A>,
    done: &[u8; N],
    number: u64,
) -> Result<(), AllocError>
    ensures { OnOk result (out.new.text ≡ out.old.text ++ done_text done.now number) }
{
    out.reserve(done.len() + MOST_DIGITS + 1)?;
    put_done(out, done, number);
    Ok(())
}

// promise: as put_named
/// Puts a line: what was done, a name and a number. It must fit into the spare capacity.
// Inlined: a call for each length of what was done would save and load five registers.
#[inline(always)]
pub fn put_numbered<A: Allocator + Copy, const N: usize>(
    out: &mut TextBuffer<A>,
    done: &[u8; N],
    name: &[u8],
    number: u64,
)
    requires { N + length name.now + MOST_DIGITS + 2 ≤ out.old.spare }
    ensures { out.new.text ≡ out.old.text ++ numbered_text done.now name.now number }
{
    out.put(done);
    out.put_name(name);
    out.put(b" ");
    out.put_number(number);
    out.put(b"\n");
}

// promise: as put_named
/// Adds a line: what was done, a name and a number.
pub fn push_numbered<A: Allocator + Copy, const N: usize>(
    out: &mut TextBuffer<A>,
    done: &[u8; N],
    name: &[u8],
    number: u64,
) -> Result<(), AllocError>
    ensures { OnOk result (out.new.text ≡ out.old.text ++ numbered_text done.now name.now number) }
{
    out.reserve(name.len().saturating_add(done.len() + MOST_DIGITS + 2))?;
    put_numbered(out, done, name, number);
    Ok(())
}

/// Puts ` X=V`: an object's name and value. The most bytes of it must fit into the spare capacity.
fn put_named_value<A: Allocator + Copy>(out: &mut TextBuffer<A>, name: &Name, value: i64)
    requires { MOST_VALUE_BYTES ≤ out.old.spare }
    ensures text { out.new.text ≡ out.old.text ++ value_text name.now value }
    ensures spare { out.old.spare ≤ out.new.spare + MOST_VALUE_BYTES }
{
    out.put(b" ");
    out.put_name(name.as_bytes());
    out.put(b"=");
    out.put_value(value);
}

// promise: as put_named
/// Puts ` X=V` for each object, in order of declaration. The most bytes of them must fit into the spare capacity.
pub fn put_values<A: Allocator + Copy>(
    out: &mut TextBuffer<A>,
    objects: &ObjectTable<A>,
    values: &[i64],
)
    requires { length objects.now * MOST_VALUE_BYTES ≤ out.old.spare }
    ensures text { out.new.text ≡ out.old.text ++ values_text objects.now values.now }
    ensures spare { out.old.spare ≤ out.new.spare + length objects.now * MOST_VALUE_BYTES }
{
    for index in 0..objects.len().min(values.len()) {
        let name = objects.name(ObjectId::new(index as u16));
        put_named_value(out, name, values[index]);
    }
}

// promise: as put_named
/// Adds ` X=V` for each object, in order of declaration.
pub fn push_values<A: Allocator + Copy>(
    out: &mut TextBuffer<A>,
    objects: &ObjectTable<A>,
    values: &[i64],
) -> Result<(), AllocError>
    ensures { OnOk result (out.new.text ≡ out.old.text ++ values_text objects.now values.now) }
{
    out.reserve(objects.len() * MOST_VALUE_BYTES)?;
    put_values(out, objects, values);
    Ok(())
}
