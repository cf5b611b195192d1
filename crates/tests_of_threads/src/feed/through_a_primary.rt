//! What a primary has next for a site goes into its feed.
ghost use Rattle.tests_of_threads.specs.Following.{HasPushed};

use ordup_feed::{Feed, SendEnd, TakeEnd};
use ordup_objects::Refusal;
use ordup_primary::{Primary, next_updates_may_follow};
use std::alloc::Global;
use std::process::Abort;
use std::sync::Wait;
use std::test::Fail;
use test_fixtures::{a, expect, expect_eq, propose_add, started};

/// The primary of the site a with two updates, which add 3 and then 4 to x.
fn two_updates(rt: &impl Abort, alloc: Global) -> Result<Primary, Refusal> {
    let mut primary = started(alloc, &[("a", 1, None)])?;
    expect_eq!(rt; propose_add(&mut primary, 3), Ok(1));
    expect_eq!(rt; propose_add(&mut primary, 4), Ok(2));
    Ok(primary)
}

/// A feed of one parcel for the first site of a primary, to which nothing was sent yet.
fn feed_of(rt: &impl Abort, alloc: Global, primary: &Primary) -> (SendEnd, TakeEnd)
    ensures { HasPushed primary.now result.0 }
{
    primary.keeps();
    expect!(rt; primary.setup().sites() > 0);
    expect!(rt; primary.sent(a()) == 0);
    let Ok(ends) = Feed::new(alloc, primary.setup().objects(), 1) else {
        panic!(rt; "the feed is refused")
    };
    ends
}

/// Pushes the next update for the first site behind those that were sent to it.
fn send<R: Wait>(rt: &R, primary: &mut Primary, end: &mut SendEnd) -> Result<u64, Refusal>
    requires { HasPushed primary.old end.old }
    ensures { HasPushed primary.new end.new }
{
    next_updates_may_follow();
    let site = a();
    primary.keeps();
    let parcel = primary.next_for(site)?;
    let number = parcel.number;
    match end.push(rt, parcel) {
        Ok(()) => {
            primary.mark_sent(site);
            Ok(number)
        }
        Err(back) => {
            drop(back.parcel);
            Err(back.refusal)
        }
    }
}

/// Sends, and sees that this is the answer.
fn expect_sent<R: Wait + Abort>(
    rt: &R,
    primary: &mut Primary,
    end: &mut SendEnd,
    answer: Result<u64, Refusal>,
)
    requires { HasPushed primary.old end.old }
    ensures { HasPushed primary.new end.new }
{
    expect_eq!(rt; send(rt, primary, end), answer);
}

/// Pops, and sees that the parcel has this number.
fn expect_taken<R: Wait + Abort>(rt: &R, end: &mut TakeEnd, number: u64) {
    expect_eq!(rt; end.pop(rt).map(|p| p.number), Some(number));
}

/// Sends two updates of a primary through its feed.
// shows: Primary::next_for number set refused; Primary::mark_sent marked; next_updates_may_follow
#[test]
fn the_updates_of_a_primary_go_through_a_feed(rt: HostRuntime) -> Result<(), Fail> {
    let mut primary = two_updates(&rt, rt.alloc())?;
    let (mut sender, mut taker) = feed_of(&rt, rt.alloc(), &primary);
    expect_sent(&rt, &mut primary, &mut sender, Ok(1));
    expect_sent(&rt, &mut primary, &mut sender, Err(Refusal::FeedFull));
    expect_taken(&rt, &mut taker, 1);
    expect_sent(&rt, &mut primary, &mut sender, Ok(2));
    expect_taken(&rt, &mut taker, 2);
    expect_sent(&rt, &mut primary, &mut sender, Err(Refusal::NothingToSend));
    drop(taker);
    drop(sender);
    primary.discard();
    Ok(())
}
