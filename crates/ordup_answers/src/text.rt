//! The text of answers.
//!
//! Spare capacity for an answer is reserved before the event that it answers, so that no answer is lost for want of memory. What
//! puts takes it as given.
ghost use Rattle.std.specs.Prelude.{◌≡◌, ◌+◌, ◌*◌, ◌≤◌, ◌++◌, ◌∷◌, [], OnOk, IfErr, codes, length, slice_index_or, take};
ghost use Rattle.std.specs.Fmt.{decimal, signed_decimal};
ghost use Rattle.ordup_text.specs.Lines.{named_text, done_text, numbered_text};
ghost use Rattle.ordup_text.specs.declared.text_buffer.TheConstants.{MOST_DIGITS};
ghost use Rattle.ordup_answers.specs.declared.text.TheConstants.{MOST_ANSWER_BYTES, MOST_REFUSAL_BYTES, MOST_SITE_BYTES, MOST_WINDOW_BYTES};
ghost use Rattle.ordup_objects.specs.Sizes.{most_sites};
ghost use Rattle.ordup_answers.specs.Replies.{declared_text, declared_name};
ghost use Rattle.ordup_answers.specs.Texts.{answer_text, certified_text, ended_text, listed_text, placed_text, read_text, refused_text};
ghost use Rattle.ordup_answers.specs.Texts.{settled_text, shown_text, sites_text, started_text, window_text, windows_text};

use ordup_grammar::{Declaration, SiteAction};
use ordup_objects::sizes::MOST_NAME_BYTES;
use ordup_objects::{Name, ObjectTable, Refusal, SiteId};
use ordup_primary::{SiteList, Window};
use ordup_text::{
    TextBuffer, put_done, put_named, put_numbered, put_values, put_with_number, put_with_value,
};
use ordup_world::{Answer, QueryAnswer, ReadAnswer, Settled, Setup};
use std::alloc::{AllocError, Allocator};

/// The most bytes of an answer without the names that its line has: of `ok show`, where there are 256 objects. Only the answer to
/// `certify` may have more.
pub const MOST_ANSWER_BYTES: usize = 10_106;
/// The most bytes of `refused N NAME`.
pub const MOST_REFUSAL_BYTES: usize = 45;
/// The most bytes of ` S`.
pub const MOST_SITE_BYTES: usize = 17;
/// The most bytes of ` A-B`.
pub const MOST_WINDOW_BYTES: usize = 42;

/// Reserves spare capacity for an answer whose line has names of this many bytes.
#[inline(always)]
pub(crate) fn reserve_answer<A: Allocator + Copy>(
    out: &mut TextBuffer<A>,
    names: usize,
) -> Result<(), AllocError>
    ensures text { out.new.text ≡ out.old.text }
    ensures spare { OnOk result (names + MOST_ANSWER_BYTES ≤ out.new.spare) }
    // No list has more bytes.
    ensures most { OnOk result (out.new.spare ≤ 9223372036854775807) }
{
    out.reserve(names.saturating_add(MOST_ANSWER_BYTES))
}

// promise text: as push_answer
// promise kept: as Answering::answer kept
/// Adds the answer to what was refused. Want of memory has no answer.
pub fn push_refused<A: Allocator + Copy>(
    out: &mut TextBuffer<A>,
    refusal: Refusal,
) -> Result<(), AllocError>
    ensures text { OnOk result ((refusal ≡ Refusal.NoMemory → ⊥) × (out.new.text ≡ out.old.text ++ refused_text refusal)) }
    ensures kept { IfErr result (λ _. out.new.text ≡ out.old.text) }
{
    out.reserve(MOST_REFUSAL_BYTES)?;
    put_refused(out, refusal)
}

/// Puts the answer to what was refused. Want of memory has no answer.
fn put_refused<A: Allocator + Copy>(
    out: &mut TextBuffer<A>,
    refusal: Refusal,
) -> Result<(), AllocError>
    requires { MOST_REFUSAL_BYTES ≤ out.old.spare }
    ensures text { OnOk result ((refusal ≡ Refusal.NoMemory → ⊥) × (out.new.text ≡ out.old.text ++ refused_text refusal)) }
    ensures kept { IfErr result (λ _. (refusal ≡ Refusal.NoMemory) × (out.new.text ≡ out.old.text)) }
{
    if let Refusal::NoMemory = refusal {
        return Err(AllocError);
    }
    out.put(b"refused ");
    out.put_number(u64::from(refusal.number()));
    out.put(b" ");
    out.put(refusal.name().as_bytes());
    out.put(b"\n");
    Ok(())
}

/// Puts the answer to a declaration.
pub(crate) fn put_declared<A: Allocator + Copy>(
    out: &mut TextBuffer<A>,
    declaration: &Declaration<'_>,
)
    requires { length (declared_name declaration.now) + MOST_ANSWER_BYTES ≤ out.old.spare }
    ensures { out.new.text ≡ out.old.text ++ declared_text declaration.now }
{
    match declaration {
        Declaration::Object { name, .. } => put_named(out, b"ok object ", name.as_bytes()),
        Declaration::Group { name, .. } => put_named(out, b"ok group ", name.as_bytes()),
        Declaration::Site { name, .. } => put_named(out, b"ok site ", name.as_bytes()),
        Declaration::Limit { site, .. } => put_named(out, b"ok limit ", site.as_bytes()),
    }
}

/// Puts the answer to the start.
pub(crate) fn put_started<A: Allocator + Copy>(out: &mut TextBuffer<A>)
    requires { MOST_ANSWER_BYTES ≤ out.old.spare }
    ensures { out.new.text ≡ out.old.text ++ started_text }
{
    out.put(b"ok start\n");
}

/// The numbers that a shown site has.
#[derive(Clone, Copy)]
struct ShownNumbers {
    sent: u64,
    applied: u64,
    reported: u64,
    rounds: u64,
}

/// Puts the answer that shows a site.
fn put_shown<A: Allocator + Copy>(
    out: &mut TextBuffer<A>,
    site: &[u8],
    numbers: ShownNumbers,
    objects: &ObjectTable<A>,
    values: &[i64],
)
    requires { length site.now + MOST_ANSWER_BYTES ≤ out.old.spare }
    ensures { out.new.text ≡ out.old.text ++ shown_text site.now (record {
      sent = numbers.sent;
      applied = numbers.applied;
      reported = numbers.reported;
      rounds = numbers.rounds;
    }) objects.now values.now }
{
    objects.keeps();
    out.put_array(b"ok show ");
    out.put_name(site);
    put_with_number(out, b" sent ", numbers.sent);
    put_with_number(out, b" applied ", numbers.applied);
    put_with_number(out, b" reported ", numbers.reported);
    put_with_number(out, b" rounds ", numbers.rounds);
    put_values(out, objects, values);
    out.put_array(b"\n");
}

// promise: answers and refusals have the text of the format; want of memory has none
/// Adds the answer to an event, as `put_answer` puts it.
pub fn push_answer<A: Allocator + Copy>(
    out: &mut TextBuffer<A>,
    setup: &Setup<A>,
    subject: &[u8],
    object: &[u8],
    answer: &Answer<A>,
) -> Result<(), AllocError>
    ensures { OnOk result ((answer.now ≡ Answer.Refused Refusal.NoMemory → ⊥) × (out.new.text ≡ out.old.text ++ answer_text setup.now subject.now object.now answer.now)) }
{
    reserve_answer(out, subject.len() + object.len())?;
    put_answer(out, setup, subject, object, answer)
}

/// Puts the answer to an event. The subject is the site or the query that the event names, and the object the one that it names.
///
/// It fails only where the answer is a refusal for want of memory, and then puts nothing.
// Inlined, so that where the answer is known its text alone is left to add. The compiler does not inline a function that would grow
// very large, so what adds a text with a name and a number stays a call, for each length of its first part.
#[inline(always)]
pub(crate) fn put_answer<A: Allocator + Copy>(
    out: &mut TextBuffer<A>,
    setup: &Setup<A>,
    subject: &[u8],
    object: &[u8],
    answer: &Answer<A>,
) -> Result<(), AllocError>
    requires { length subject.now + length object.now + MOST_ANSWER_BYTES ≤ out.old.spare }
    ensures text { OnOk result ((answer.now ≡ Answer.Refused Refusal.NoMemory → ⊥) × (out.new.text ≡ out.old.text ++ answer_text setup.now subject.now object.now answer.now)) }
    ensures kept { IfErr result (λ _. (answer.now ≡ Answer.Refused Refusal.NoMemory) × (out.new.text ≡ out.old.text)) }
{
    match answer {
        Answer::Proposed(number) => put_proposed(out, *number),
        Answer::Sent { number, .. } => put_place(out, b"ok sent ", subject, *number),
        Answer::Applied { number, .. } => put_place(out, b"ok applied ", subject, *number),
        Answer::Reported { place, .. } => put_place(out, b"ok reported ", subject, *place),
        Answer::Settlement(settled) => put_settled(out, setup, settled),
        Answer::Relimited { place, .. } => put_place(out, b"ok relimit ", subject, *place),
        Answer::Begun { query, place } => put_begun(out, query, *place),
        Answer::ReadOut(answer) => put_read(out, subject, object, *answer),
        Answer::Ended(answer) => put_ended(out, subject, *answer),
        Answer::Abandoned(query) => put_abandoned(out, query),
        Answer::Shown {
            sent,
            applied,
            reported,
            rounds,
            values,
        } => {
            let numbers = ShownNumbers {
                sent: *sent,
                applied: *applied,
                reported: *reported,
                rounds: *rounds,
            };
            put_shown(out, subject, numbers, setup.objects(), values.as_slice());
        }
        Answer::Refused(refusal) => return put_refused(out, *refusal),
    }
    Ok(())
}

/// Puts the answer to a proposal.
// A call, as the next one is. With their text inlined `put_answer` would be so large that the compiler would leave it a call, and
// the step of an event with it.
#[inline(never)]
fn put_proposed<A: Allocator + Copy>(out: &mut TextBuffer<A>, number: u64)
    requires { MOST_ANSWER_BYTES ≤ out.old.spare }
    ensures { out.new.text ≡ out.old.text ++ done_text (codes "ok proposed ") number }
{
    put_done(out, b"ok proposed ", number);
}

/// Puts an answer of a name and a place.
#[inline(never)]
fn put_place<A: Allocator + Copy, const N: usize>(
    out: &mut TextBuffer<A>,
    done: &[u8; N],
    name: &[u8],
    place: u64,
)
    requires { N + length name.now + MOST_DIGITS + 2 ≤ out.old.spare }
    ensures { out.new.text ≡ out.old.text ++ numbered_text done.now name.now place }
{
    put_numbered(out, done, name, place);
}

/// Puts the answer to an action at a site: the name is the first `len` bytes of an array.
#[inline(always)]
pub(crate) fn put_placed<A: Allocator + Copy>(
    out: &mut TextBuffer<A>,
    action: SiteAction,
    name: &[u8; MOST_NAME_BYTES],
    len: usize,
    place: u64,
)
    requires { (len ≤ 16) × (len + MOST_ANSWER_BYTES ≤ out.old.spare) }
    ensures { out.new.text ≡ out.old.text ++ placed_text action (take len name.now) place }
{
    match action {
        SiteAction::Send => put_name_and_place(out, b"ok sent ", name, len, place),
        SiteAction::Apply => put_name_and_place(out, b"ok applied ", name, len, place),
        SiteAction::Report => put_name_and_place(out, b"ok reported ", name, len, place),
    }
}

/// Puts what was done, the first `len` bytes of a name, and a place.
#[inline(always)]
fn put_name_and_place<A: Allocator + Copy, const N: usize>(
    out: &mut TextBuffer<A>,
    done: &[u8; N],
    name: &[u8; MOST_NAME_BYTES],
    len: usize,
    place: u64,
)
    requires { (len ≤ 16) × (N + 16 + MOST_DIGITS + 2 ≤ out.old.spare) }
    ensures { out.new.text ≡ out.old.text ++ numbered_text done.now (take len name.now) place }
{
    out.put_array(done);
    out.put_prefix(name, len);
    out.put_array(b" ");
    out.put_number(place);
    out.put_array(b"\n");
}

/// Puts the answer to a query that began.
fn put_begun<A: Allocator + Copy>(out: &mut TextBuffer<A>, query: &Name, place: u64)
    requires { MOST_ANSWER_BYTES ≤ out.old.spare }
    ensures { out.new.text ≡ out.old.text ++ numbered_text (codes "ok begun ") query.now place }
{
    put_place(out, b"ok begun ", query.as_bytes(), place);
}

/// Puts the answer to a query that was abandoned.
fn put_abandoned<A: Allocator + Copy>(out: &mut TextBuffer<A>, query: &Name)
    requires { MOST_ANSWER_BYTES ≤ out.old.spare }
    ensures { out.new.text ≡ out.old.text ++ named_text (codes "ok abandoned ") query.now }
{
    put_named(out, b"ok abandoned ", query.as_bytes());
}

/// Puts the answer to a read.
fn put_read<A: Allocator + Copy>(
    out: &mut TextBuffer<A>,
    query: &[u8],
    object: &[u8],
    answer: ReadAnswer,
)
    requires { length query.now + length object.now + MOST_ANSWER_BYTES ≤ out.old.spare }
    ensures { out.new.text ≡ out.old.text ++ read_text query.now object.now answer }
{
    out.put_array(b"ok read ");
    out.put_name(query);
    out.put_array(b" ");
    out.put_name(object);
    out.put_array(b" value ");
    out.put_value(answer.value);
    out.put_array(b" import ");
    out.put_number(answer.import);
    out.put_array(b" total ");
    out.put_number(answer.total);
    out.put_array(b"\n");
}

/// Puts the answer to the end of a query: what its reads came to.
fn put_ended<A: Allocator + Copy>(out: &mut TextBuffer<A>, query: &[u8], answer: QueryAnswer)
    requires { length query.now + MOST_ANSWER_BYTES ≤ out.old.spare }
    ensures { out.new.text ≡ out.old.text ++ ended_text query.now answer }
{
    out.put_array(b"ok end ");
    out.put_name(query);
    put_with_number(out, b" place ", answer.place);
    put_with_value(out, b" sum ", answer.sum);
    put_with_number(out, b" total ", answer.total);
    put_with_number(out, b" reads ", answer.reads);
    out.put_array(b"\n");
}

/// Puts the answer to a settlement.
fn put_settled<A: Allocator + Copy>(out: &mut TextBuffer<A>, setup: &Setup<A>, settled: &Settled)
    requires { MOST_ANSWER_BYTES ≤ out.old.spare }
    ensures { out.new.text ≡ out.old.text ++ settled_text setup.now.sites settled.now }
{
    match settled {
        Settled::Acked(k) => put_done(out, b"ok acked ", *k),
        Settled::Round { k, sites } => put_listed(out, b"ok round ", *k, setup, sites),
        Settled::Waiting { k, sites } => put_listed(out, b"ok waiting ", *k, setup, sites),
    }
}

/// Puts an answer that ends with a number and sites.
fn put_listed<A: Allocator + Copy, const N: usize>(
    out: &mut TextBuffer<A>,
    done: &[u8; N],
    number: u64,
    setup: &Setup<A>,
    sites: &SiteList,
)
    requires { N + most_sites * MOST_SITE_BYTES + MOST_DIGITS + 1 ≤ out.old.spare }
    ensures { out.new.text ≡ out.old.text ++ listed_text done.now number setup.now.sites sites.now }
{
    sites.keeps();
    out.put_array(done);
    out.put_number(number);
    put_sites(out, setup, sites.as_slice());
    out.put_array(b"\n");
}

/// Puts ` S` for each of these sites.
fn put_sites<A: Allocator + Copy>(out: &mut TextBuffer<A>, setup: &Setup<A>, sites: &[SiteId])
    requires { length sites.now * MOST_SITE_BYTES ≤ out.old.spare }
    ensures text { out.new.text ≡ out.old.text ++ sites_text setup.now.sites sites.now }
    ensures spare { out.old.spare ≤ out.new.spare + length sites.now * MOST_SITE_BYTES }
{
    for site in sites {
        put_site(out, setup, *site);
    }
}

/// Puts ` S`: a space, and the name of the site where there is one.
fn put_site<A: Allocator + Copy>(out: &mut TextBuffer<A>, setup: &Setup<A>, site: SiteId)
    requires { MOST_SITE_BYTES ≤ out.old.spare }
    ensures text { out.new.text ≡ out.old.text ++ 32 ∷ [] ++ (slice_index_or setup.now.sites site ([], 0)).0 }
    ensures spare { out.old.spare ≤ out.new.spare + MOST_SITE_BYTES }
{
    out.put_array(b" ");
    if site.index() < setup.sites() {
        out.put_name(setup.site_name(site).as_bytes());
    }
}

// promise text: as push_answer
// promise kept: as Answering::answer kept
/// Adds the answer that shows how many rounds a site has at least, and its windows.
pub fn push_certified<A: Allocator + Copy>(
    out: &mut TextBuffer<A>,
    site: &[u8],
    rounds: u64,
    windows: &[Window],
) -> Result<(), AllocError>
    ensures text { OnOk result (out.new.text ≡ out.old.text ++ certified_text site.now rounds windows.now) }
    ensures kept { IfErr result (λ _. out.new.text ≡ out.old.text) }
{
    reserve_answer(
        out,
        site.len()
            .saturating_add(windows.len().saturating_mul(MOST_WINDOW_BYTES)),
    )?;
    out.put_array(b"ok certified ");
    out.put_name(site);
    out.put_array(b" ");
    out.put_number(rounds);
    put_windows(out, windows);
    out.put_array(b"\n");
    Ok(())
}

/// Puts ` A-B` for each of these windows.
fn put_windows<A: Allocator + Copy>(out: &mut TextBuffer<A>, windows: &[Window])
    requires { length windows.now * MOST_WINDOW_BYTES ≤ out.old.spare }
    ensures text { out.new.text ≡ out.old.text ++ windows_text windows.now }
    ensures spare { out.old.spare ≤ out.new.spare + length windows.now * MOST_WINDOW_BYTES }
{
    for window in windows {
        put_window(out, *window);
    }
}

/// Puts ` A-B`.
fn put_window<A: Allocator + Copy>(out: &mut TextBuffer<A>, window: Window)
    requires { MOST_WINDOW_BYTES ≤ out.old.spare }
    ensures text { out.new.text ≡ out.old.text ++ window_text window }
    ensures spare { out.old.spare ≤ out.new.spare + MOST_WINDOW_BYTES }
{
    put_with_number(out, b" ", window.from);
    put_with_number(out, b"-", window.to);
}
