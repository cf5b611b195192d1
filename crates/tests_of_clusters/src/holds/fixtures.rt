//! Holds of a book and of a cell.
use crate::expect::made;
use ordup_cluster::holds::{Book, SiteCell, number, take, turn, view};
use ordup_objects::Refusal;
use std::process::Abort;
use std::sync::Wait;
use test_cluster_fixtures::seen;
use test_fixtures::{add, expect, expect_eq, x};

/// Numbers the update that adds a number to x.
pub fn number_add(rt: &impl Abort, book: &mut Book, n: i64) -> Result<u64, Refusal> {
    let set = made(rt, add(book.primary().setup().objects(), x(), n));
    expect!(rt; set.are_known(book.primary().log().objects()));
    number(book, set)
}

/// Makes a turn, and sees how many updates are acknowledged.
pub fn expect_turn<R: Wait + Abort>(rt: &R, book: &mut Book, acked: u64) {
    expect_eq!(rt; turn(rt, book), Ok(acked));
}

/// Takes what comes next, and sees that it is the update with this number, or nothing.
pub fn expect_taken<R: Wait + Abort>(rt: &R, cell: &mut SiteCell, number: Option<u64>) {
    expect_eq!(rt; take(rt, cell), number);
}

/// Sees the value of x in a cell, and how many updates it has applied.
pub fn expect_seen(rt: &impl Abort, cell: &SiteCell, value: i64, applied: u64) {
    expect_eq!(rt; view(cell, x()), Ok(seen(value, applied)));
}
