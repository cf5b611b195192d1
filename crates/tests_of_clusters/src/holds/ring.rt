//! One update on its way from a book to a cell through a ring, whose calls wait for nobody. It has a condition.
use crate::expect::made;
use ordup_cluster::holds::{
    Book, ProposalError, SiteCell, number_and_turn, number_if_and_turn, open_as, take, turn, view,
};
use ordup_conditions::{Bound, Condition, check_conditions};
use ordup_limits::Scope;
use ordup_objects::MessageSet;
use ordup_ring::{RingFeed, RingSendEnd, RingTakeEnd};
use std::process::Abort;
use std::test::Fail;
use test_cluster_fixtures::seen;
use test_fixtures::{a, add, declared, expect, expect_eq, x};

/// The set that adds a number to x.
fn set_of(rt: &impl Abort, book: &Book<RingSendEnd>, n: i64) -> MessageSet {
    made(rt, add(book.primary().setup().objects(), x(), n))
}

/// Adds a number to x where x is then at most 6. It answers the number of the update.
fn add_up_to_6(
    rt: &impl Abort,
    book: &mut Book<RingSendEnd>,
    n: i64,
) -> Result<u64, ProposalError> {
    let objects = book.primary().log().objects();
    let set = set_of(rt, book, n);
    let conditions = [Condition {
        object: x(),
        bound: Bound::AtMost(6),
    }];
    expect!(rt; set.are_known(objects));
    let Ok(()) = check_conditions(objects, &conditions) else {
        panic!(rt; "x is unknown")
    };
    match number_if_and_turn(&(), book, set, &conditions) {
        Ok(numbered) => {
            expect_eq!(rt; numbered.turn, Ok(0));
            Ok(numbered.number)
        }
        Err(error) => Err(error),
    }
}

/// Takes 1 from x without a condition, and sees that it is update 2. The turn of that hold hears that the site took the first one.
fn take_one_away(rt: &impl Abort, book: &mut Book<RingSendEnd>) {
    let set = set_of(rt, book, -1);
    expect!(rt; set.are_known(book.primary().log().objects()));
    let Ok(numbered) = number_and_turn(&(), book, set) else {
        panic!(rt; "the set is refused")
    };
    expect_eq!(rt; numbered.number, 2);
    expect_eq!(rt; numbered.turn, Ok(2));
}

/// The limit on x is 5: the first update adds 6, and is acknowledged only once the site has taken it.
fn follow(rt: &impl Abort, book: &mut Book<RingSendEnd>, cell: &mut SiteCell<RingTakeEnd>) {
    expect_eq!(rt; add_up_to_6(rt, book, 7), Err(ProposalError::Unmet(0)));
    expect_eq!(rt; take(&(), cell), None);
    expect_eq!(rt; add_up_to_6(rt, book, 6), Ok(1));
    expect_eq!(rt; take(&(), cell), Some(1));
    expect_eq!(rt; view(cell, x()), Ok(seen(6, 1)));
    take_one_away(rt, book);
    expect_eq!(rt; turn(&(), book), Ok(2));
    expect_eq!(rt; take(&(), cell), Some(2));
    expect_eq!(rt; view(cell, x()), Ok(seen(5, 2)));
    expect_eq!(rt; book.primary().reported(a()), 1);
}

/// Follows one update from the book to the cell through a ring, and one that is not numbered.
// shows: open; number_if_and_turn number met refused err; number_and_turn number turn; turn acked; take taken none; view
#[test]
fn a_ring_brings_an_update_whose_condition_is_met(rt: HostRuntime) -> Result<(), Fail> {
    let alloc = rt.alloc();
    let setup = declared(alloc, &[("a", 4, Some((Scope::Object(x()), 5)))])?;
    let (mut book, mut cells) = open_as::<RingFeed>(alloc, setup)?;
    expect!(&rt; cells.len() == 1);
    follow(&rt, &mut book, &mut cells[0]);
    drop(book);
    drop(cells);
    Ok(())
}
