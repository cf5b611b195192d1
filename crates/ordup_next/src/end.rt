//! The job `next --record`.
ghost use Rattle.std.specs.Prelude.{length};
ghost use Rattle.ordup_log.specs.Groups.{AreGroupsKnown};
ghost use Rattle.ordup_audit.specs.Validity.{IsValid};
ghost use Rattle.ordup_audit.specs.Verdicts.{IfFewest};
ghost use Rattle.ordup_succession.specs.DeclaringLines.{object_lines};
ghost use Rattle.ordup_succession.specs.Lines.{lines_text};
ghost use Rattle.ordup_faults.specs.Printing.{PrintsIfMemory};
ghost use Rattle.ordup_next.specs.Ends.{DeclaresEnd, PrintsEnd, PrintsObjects};

use ordup_audit::{Record, Verdict, check};
use ordup_check::read_record;
use ordup_faults::{Fault, Outcome, print};
use ordup_log::Groups;
use ordup_objects::ObjectTable;
use ordup_series::objects_at_end;
use ordup_succession::push_object_declarations;
use ordup_text::TextBuffer;
use ordup_verdicts::{fault_of_reading, print_verdict};
use std::alloc::Global;
use std::io::{Read, Write};

// promise DeclaresEnd: `ordup next --record` prints the last objects and the groups of a valid record
/// Reads a record and prints the declarations of its objects, at their values after its last update, and of its groups; or the
/// verdict on it where it is not valid.
///
/// - Where it ends with a status or a write fault, the text is not too long, and it tells a record. The declarations of a valid record
///   were printed, or a prefix of them; of any other record the verdict was, or a prefix of that line.
/// - `Malformed`: the row is the first that breaks a rule. Nothing was written.
/// - `Read`, `NoMemory`: nothing was written.
pub fn print_next_of_record<R: Read, W: Write>(
    alloc: Global,
    input: &mut R,
    output: &mut W,
) -> Outcome
    ensures { DeclaresEnd (R.remaining input.old) (W.contents output.old) (W.contents output.new) result }
{
    match read_record(alloc, input) {
        Ok(audited) => {
            let verdict = check(&audited);
            let printed = print_end(alloc, &audited, verdict, output);
            audited.discard();
            printed
        }
        Err(fault) => Err(fault_of_reading(fault)),
    }
}

/// Prints what a record that this verdict calls valid ends with, and else the verdict.
fn print_end<W: Write>(alloc: Global, audited: &Record, verdict: Verdict, output: &mut W) -> Outcome
    requires { IfFewest verdict (λ n. IsValid audited.now) }
    ensures { PrintsEnd audited.now verdict (W.contents output.old) (W.contents output.new) result }
{
    match verdict {
        Verdict::Fewest(_) => print_objects(alloc, audited, output),
        Verdict::No { .. } => print_verdict(alloc, verdict, output),
    }
}

/// Prints the declarations of the objects of a valid record, at their values after its last update, and of its groups.
fn print_objects<W: Write>(alloc: Global, audited: &Record, output: &mut W) -> Outcome
    requires { IsValid audited.now }
    ensures { PrintsObjects audited.now (W.contents output.old) (W.contents output.new) result }
{
    audited.keeps();
    let Ok(objects) = objects_at_end(alloc, audited) else {
        return Err(Fault::NoMemory);
    };
    let printed = print_declared(alloc, &objects, audited.groups(), output);
    drop(objects);
    printed
}

/// Prints the declarations of objects and groups, or nothing for want of memory.
fn print_declared<W: Write>(
    alloc: Global,
    objects: &ObjectTable,
    groups: &Groups,
    output: &mut W,
) -> Outcome
    requires { AreGroupsKnown (length objects.now) groups.now }
    ensures { PrintsIfMemory 0 (lines_text (object_lines objects.now groups.now)) (W.contents output.old) (W.contents output.new) result }
{
    let mut lines = TextBuffer::new(alloc);
    let printed = match push_object_declarations(&mut lines, objects, groups) {
        Ok(()) => print(lines.as_slice(), output),
        Err(_) => Err(Fault::NoMemory),
    };
    drop(lines);
    printed
}
