//! Turns at a full feed. Update k adds k to x, so after the first k updates x is 1 + 2 + .. + k.
use super::fixtures::{expect_seen, expect_taken, expect_turn, number_add};
use ordup_cluster::holds::{Book, SiteCell, open};
use ordup_limits::Scope;
use ordup_objects::sizes::GREATEST_CAPACITY;
use std::process::Abort;
use std::sync::Wait;
use std::test::Fail;
use test_fixtures::{a, declared, expect, expect_eq};

/// Numbers the updates from the first number to the last one.
fn number_all(rt: &impl Abort, book: &mut Book, first: u32, last: u32) {
    for k in first..=last {
        expect_eq!(rt; number_add(rt, book, i64::from(k)), Ok(u64::from(k)));
    }
}

/// Takes the updates from the first number to the last one, after which the feed is empty.
fn take_all<R: Wait + Abort>(rt: &R, cell: &mut SiteCell, first: u64, last: u64) {
    for k in first..=last {
        expect_taken(rt, cell, Some(k));
    }
    expect_taken(rt, cell, None);
}

/// Sees how many updates were sent to a, and how many it reported.
fn expect_known(rt: &impl Abort, book: &Book, sent: u64, reported: u64) {
    let primary = book.primary();
    expect!(rt; primary.setup().sites() > 0);
    expect_eq!(rt; primary.sent(a()), sent);
    expect_eq!(rt; primary.reported(a()), reported);
}

/// Five updates through a feed with a capacity of two.
fn fill_and_empty<R: Wait + Abort>(rt: &R, book: &mut Book, cell: &mut SiteCell) {
    number_all(rt, book, 1, 5);
    // No limit holds an update back.
    expect_turn(rt, book, 5);
    expect_known(rt, book, 2, 0);
    // Nothing was taken, so the feed is full.
    expect_turn(rt, book, 5);
    expect_known(rt, book, 2, 0);
    take_all(rt, cell, 1, 2);
    expect_seen(rt, cell, 3, 2);
    expect_turn(rt, book, 5);
    expect_known(rt, book, 4, 2);
    take_all(rt, cell, 3, 4);
    expect_turn(rt, book, 5);
    expect_known(rt, book, 5, 4);
    take_all(rt, cell, 5, 5);
    expect_seen(rt, cell, 15, 5);
}

/// Sends five updates through a feed with a capacity of two.
// shows: turn turned; what a turn finds
#[test]
fn sends_stop_at_a_full_feed_until_an_update_is_taken(rt: HostRuntime) -> Result<(), Fail> {
    let alloc = rt.alloc();
    let setup = declared(alloc, &[("a", 2, None)])?;
    let (mut book, mut cells) = open(alloc, setup)?;
    expect!(&rt; cells.len() == 1);
    fill_and_empty(&rt, &mut book, &mut cells[0]);
    drop(book);
    drop(cells);
    Ok(())
}

/// Takes one update at a time from a feed with a capacity of three.
fn take_one_by_one<R: Wait + Abort>(rt: &R, book: &mut Book, cell: &mut SiteCell) {
    number_all(rt, book, 1, 5);
    expect_turn(rt, book, 5);
    expect_known(rt, book, 3, 0);
    for k in 1..=2u64 {
        expect_taken(rt, cell, Some(k));
        expect_turn(rt, book, 5);
        expect_known(rt, book, 3 + k, k);
    }
    take_all(rt, cell, 3, 5);
    expect_seen(rt, cell, 15, 5);
}

/// Takes updates one by one from a full feed.
// shows: turn turned; what a turn finds
#[test]
fn each_update_that_is_taken_lets_another_in(rt: HostRuntime) -> Result<(), Fail> {
    let alloc = rt.alloc();
    let setup = declared(alloc, &[("a", 3, None)])?;
    let (mut book, mut cells) = open(alloc, setup)?;
    expect!(&rt; cells.len() == 1);
    take_one_by_one(&rt, &mut book, &mut cells[0]);
    drop(book);
    drop(cells);
    Ok(())
}

/// Three updates more than the largest feed can take.
fn overfill<R: Wait + Abort>(rt: &R, book: &mut Book, cell: &mut SiteCell) {
    number_all(rt, book, 1, 1_027);
    expect_turn(rt, book, 1_027);
    expect_known(rt, book, 1_024, 0);
    take_all(rt, cell, 1, 1_024);
    // 1,024 times 1,025, halved.
    expect_seen(rt, cell, 524_800, 1_024);
    expect_turn(rt, book, 1_027);
    expect_known(rt, book, 1_027, 1_024);
    take_all(rt, cell, 1_025, 1_027);
    expect_seen(rt, cell, 527_878, 1_027);
}

/// Sends more updates than the largest feed holds.
// shows: turn turned; what a turn finds
#[test]
fn the_largest_feed_loses_nothing(rt: HostRuntime) -> Result<(), Fail> {
    let alloc = rt.alloc();
    let setup = declared(alloc, &[("a", GREATEST_CAPACITY, None)])?;
    let (mut book, mut cells) = open(alloc, setup)?;
    expect!(&rt; cells.len() == 1);
    overfill(&rt, &mut book, &mut cells[0]);
    drop(book);
    drop(cells);
    Ok(())
}

/// Three updates for two sites, of which the first has a capacity of one.
fn fill_the_first<R: Wait + Abort>(rt: &R, book: &mut Book) {
    number_all(rt, book, 1, 3);
    expect_turn(rt, book, 3);
    expect_known(rt, book, 1, 0);
}

/// Sends to two sites, one of which has a full feed.
// shows: turn turned; what a turn finds
#[test]
fn a_full_feed_keeps_nothing_from_the_other_sites(rt: HostRuntime) -> Result<(), Fail> {
    let alloc = rt.alloc();
    let setup = declared(alloc, &[("a", 1, None), ("b", 4, None)])?;
    let (mut book, mut cells) = open(alloc, setup)?;
    expect!(&rt; cells.len() == 2);
    fill_the_first(&rt, &mut book);
    take_all(&rt, &mut cells[0], 1, 1);
    take_all(&rt, &mut cells[1], 1, 3);
    drop(book);
    drop(cells);
    Ok(())
}

/// Two updates, each of which waits for the site. One turn learns that the first was taken, acknowledges it, and sends the second.
fn wait_for_each<R: Wait + Abort>(rt: &R, book: &mut Book, cell: &mut SiteCell) {
    number_all(rt, book, 1, 1);
    expect_turn(rt, book, 0);
    number_all(rt, book, 2, 2);
    expect_turn(rt, book, 0);
    expect_known(rt, book, 1, 0);
    take_all(rt, cell, 1, 1);
    expect_turn(rt, book, 1);
    expect_known(rt, book, 2, 1);
    take_all(rt, cell, 2, 2);
    expect_turn(rt, book, 2);
    expect_known(rt, book, 2, 2);
    expect_seen(rt, cell, 3, 2);
}

/// Makes turns while each update waits for the site.
// shows: turn acked; what a turn finds; looks
#[test]
fn a_turn_learns_what_was_taken_and_acknowledges_it(rt: HostRuntime) -> Result<(), Fail> {
    let alloc = rt.alloc();
    let setup = declared(alloc, &[("a", 1, Some((Scope::All, 0)))])?;
    let (mut book, mut cells) = open(alloc, setup)?;
    expect!(&rt; cells.len() == 1);
    wait_for_each(&rt, &mut book, &mut cells[0]);
    drop(book);
    drop(cells);
    Ok(())
}

/// Four updates, of which three may be acknowledged ahead of the site. The fourth waits until the site got all, one by one.
fn wait_for_the_fourth<R: Wait + Abort>(rt: &R, book: &mut Book, cell: &mut SiteCell) {
    for k in 1..=3u32 {
        number_all(rt, book, k, k);
        expect_turn(rt, book, u64::from(k));
    }
    number_all(rt, book, 4, 4);
    expect_turn(rt, book, 3);
    expect_known(rt, book, 1, 0);
    expect_seen(rt, cell, 0, 0);
    for k in 1..=3u64 {
        take_all(rt, cell, k, k);
        expect_turn(rt, book, 3);
        expect_known(rt, book, k + 1, k);
    }
    take_all(rt, cell, 4, 4);
    expect_turn(rt, book, 4);
    expect_seen(rt, cell, 10, 4);
}

/// Sees that the first site had one round, at this place, and one window, from 0 to there.
fn expect_round(rt: &impl Abort, book: &Book, place: u64) {
    let primary = book.primary();
    expect!(rt; primary.setup().sites() > 0);
    expect_eq!(rt; primary.rounds(a()), [place].as_slice());
    let windows = primary.windows(a());
    expect!(rt; windows.len() == 1);
    expect_eq!(rt; windows[0].from, 0);
    expect_eq!(rt; windows[0].to, place);
}

/// Waits for four updates through a feed with a capacity of one.
// shows: turn acked; what a turn finds
#[test]
fn a_round_ends_though_the_feed_holds_one_update(rt: HostRuntime) -> Result<(), Fail> {
    let alloc = rt.alloc();
    let setup = declared(alloc, &[("a", 1, Some((Scope::Count, 3)))])?;
    let (mut book, mut cells) = open(alloc, setup)?;
    expect!(&rt; cells.len() == 1);
    wait_for_the_fourth(&rt, &mut book, &mut cells[0]);
    expect_round(&rt, &book, 4);
    drop(book);
    drop(cells);
    Ok(())
}
