//! One update on its way from the book to a cell, and the report of it.
use super::fixtures::{expect_seen, expect_taken, expect_turn, number_add};
use crate::promises::relimit_in_hold;
use ordup_cluster::holds::{Book, SiteCell, open, view};
use ordup_limits::Scope;
use ordup_objects::Refusal;
use std::process::Abort;
use std::sync::Wait;
use std::test::Fail;
use test_fixtures::{a, declared, expect, expect_eq, x, z};

/// The limit on x is 5: the update adds 6, and is acknowledged only once the site reported it. From the next one on there is a limit
/// on the count.
fn follow<R: Wait + Abort>(rt: &R, book: &mut Book, cell: &mut SiteCell) {
    expect_eq!(rt; number_add(rt, book, 6), Ok(1));
    expect_taken(rt, cell, None);
    expect_turn(rt, book, 0);
    expect_seen(rt, cell, 0, 0);
    expect_eq!(rt; cell.next(), 1);
    expect_taken(rt, cell, Some(1));
    expect_seen(rt, cell, 6, 1);
    expect_eq!(rt; view(cell, z()), Err(Refusal::UnknownObject));
    expect_turn(rt, book, 1);
    expect_eq!(rt; relimit_in_hold(book, a(), Scope::Count, 0), Ok(2));
}

/// Follows one update from the book to the cell and back, and changes a limit.
// shows: number; turn acked; take taken none; view; relimit place changed
#[test]
fn an_update_is_numbered_sent_taken_seen_and_acknowledged(rt: HostRuntime) -> Result<(), Fail> {
    let alloc = rt.alloc();
    let setup = declared(alloc, &[("a", 4, Some((Scope::Object(x()), 5)))])?;
    let (mut book, mut cells) = open(alloc, setup)?;
    expect!(&rt; cells.len() == 1);
    follow(&rt, &mut book, &mut cells[0]);
    drop(book);
    drop(cells);
    Ok(())
}
