ghost use Rattle.std.specs.Prelude.{◌≡◌, IfNone, IfSome, length};
ghost use Rattle.ordup_audit.specs.Validity.{IsValid};
ghost use Rattle.ordup_audit.specs.LeastStarts.{AreStartsOf};
ghost use Rattle.ordup_audit.specs.Verdicts.{AreUpdatesLegal, IsVerdict, IfFewest, NoFewerRounds};

use crate::least_starts::LeastStarts;
use crate::legality::first_illegal;
use crate::limits::first_broken;
use crate::record::Record;
use crate::rows::last_row;
use crate::verdict::{Reason, Verdict};
use crate::windows::{first_light, first_meeting, first_reported};
use std::alloc::Allocator;

// promise fewest valid: just valid records of n rounds are answered `Fewest(n)`
// promise no_fewer: a record answered `Fewest` has the fewest rounds
// promise verdict: any other record is answered its first reason, with its row
/// Whether a record shows that its rounds are the fewest: its updates are legal, its rounds keep the limits, and it has as many
/// windows as rounds, each over a limit alone, apart from the others, and after what was reported.
///
/// The call needs no memory: it may take some, and answers the same without. It promises, clause by clause:
///
/// - `verdict`: each reason is looked for in the whole record before the next one, in the order of [`Reason`]. The verdict is the
///   first that is found, with its row; or the number of rounds, where none is found.
/// - `fewest`: where it is a number, the record is valid, and the number is that of its rounds.
/// - `valid`: where the record is valid, the verdict is the number of its rounds.
/// - `no_fewer`: where it is a number, no schedule that keeps the limits has fewer rounds.
pub fn check<A: Allocator + Copy>(audited: &Record<A>) -> Verdict
    ensures verdict { IsVerdict audited.now result }
    ensures fewest { IfFewest result (λ n. IsValid audited.now × (n ≡ length audited.now.rounds)) }
    ensures valid { IsValid audited.now → result ≡ Verdict.Fewest (length audited.now.rounds) }
    ensures no_fewer { IfFewest result (λ n. NoFewerRounds audited.now n) }
{
    audited.keeps();
    match first_reason(audited) {
        Some((row, reason)) => Verdict::No { row, reason },
        None => Verdict::Fewest(audited.rounds().len() as u64),
    }
}

/// The first reason against a record, and its row; none for a valid record.
fn first_reason<A: Allocator + Copy>(audited: &Record<A>) -> Option<(u64, Reason)>
    ensures none { IfNone result (IsVerdict audited.now (Verdict.Fewest (length audited.now.rounds))) }
    ensures some { IfSome result (λ found. IsVerdict audited.now (Verdict.No found.0 found.1)) }
{
    audited.keeps();
    if let Some(row) = first_illegal(audited) {
        return Some((row, Reason::NotLegal));
    }
    let starts = LeastStarts::of(audited);
    let found = first_reason_by(audited, &starts);
    drop(starts);
    found
}

/// The first reason against a record whose updates are legal, and its row; none for a valid record.
fn first_reason_by<A: Allocator + Copy>(
    audited: &Record<A>,
    starts: &LeastStarts<A>,
) -> Option<(u64, Reason)>
    requires legal { AreUpdatesLegal audited.now }
    requires starts { AreStartsOf audited.now starts.now }
    ensures none { IfNone result (IsVerdict audited.now (Verdict.Fewest (length audited.now.rounds))) }
    ensures some { IfSome result (λ found. IsVerdict audited.now (Verdict.No found.0 found.1)) }
{
    audited.keeps();
    if let Some(row) = first_broken(audited, starts) {
        return Some((row, Reason::LimitsBroken));
    }
    if let Some(row) = first_light(audited, starts) {
        return Some((row, Reason::WindowLight));
    }
    if let Some(row) = first_meeting(audited) {
        return Some((row, Reason::WindowsMeet));
    }
    if let Some(row) = first_reported(audited) {
        return Some((row, Reason::WindowBeforeReport));
    }
    if audited.windows().len() != audited.rounds().len() {
        return Some((last_row(audited), Reason::CountDiffers));
    }
    None
}
