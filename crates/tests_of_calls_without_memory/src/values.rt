//! Values and sites that apply updates, conditions of these, queries that read there, and records that are compared.
ghost use Rattle.std.specs.Prelude.{length};
ghost use Rattle.ordup_objects.specs.Sets.{AreKnown};

use crate::expect::made;
use ordup_conditions::{Bound, Condition, check_conditions, first_unmet};
use ordup_objects::{MessageSet, ObjectId, Refusal, Values};
use ordup_primary::Primary;
use ordup_query::{Query, QueryAnswer, ReadAnswer};
use ordup_record::record_of;
use ordup_site::Site;
use std::process::Abort;
use test_fixtures::{a, b, expect, expect_eq, x, y, z};
use test_memory_fixtures::{Heap, Scarce, grouped};

/// What the values come to that apply the first update, which adds 3 to x and to y.
fn expect_values<'a>(rt: &impl Abort, heap: Heap<'a>, primary: &Primary<Heap<'a>>) {
    heap.allow_all();
    let mut values = made(rt, Values::initial(heap, primary.setup().objects()));
    heap.allow(0);
    expect!(rt; primary.log().len() == 3);
    let set = primary.log().set(1);
    expect!(rt; set.are_known(values.len()));
    expect!(rt; values.apply(set).is_ok());
    expect!(rt; values.as_slice() == [3, 13].as_slice());
    expect!(rt; values.len() == 2);
    expect_eq!(rt; values.get(y()), 13);
    expect!(rt; !heap.has_refused());
    drop(values);
}

fn at_least(object: ObjectId, n: i64) -> Condition {
    let bound = Bound::AtLeast(n);
    Condition { object, bound }
}

fn at_most(object: ObjectId, n: i64) -> Condition {
    let bound = Bound::AtMost(n);
    Condition { object, bound }
}

/// The first of these conditions that the values do not meet after a set.
fn tested<'a>(
    values: &Values<Heap<'a>>,
    set: &MessageSet<Heap<'a>>,
    conditions: &[Condition],
) -> Result<Option<usize>, Refusal>
    requires { AreKnown (length values.now) set.now }
{
    check_conditions(values.len(), conditions)?;
    Ok(first_unmet(values, set, conditions))
}

/// Tests conditions of the first update, after which x is 3 and y is 13. There is no z.
fn expect_conditions<'a>(rt: &impl Abort, heap: Heap<'a>, primary: &Primary<Heap<'a>>) {
    heap.allow_all();
    let values = made(rt, Values::initial(heap, primary.setup().objects()));
    heap.allow(0);
    expect!(rt; primary.log().len() == 3);
    let set = primary.log().set(1);
    expect!(rt; set.are_known(values.len()));
    let met = [at_least(x(), 3), at_most(y(), 13)];
    expect!(rt; tested(&values, set, &met) == Ok(None));
    let unmet = [at_least(x(), 3), at_least(y(), 14), at_most(x(), 2)];
    expect!(rt; tested(&values, set, &unmet) == Ok(Some(1)));
    expect!(rt; tested(&values, set, &[at_most(z(), 0)]) == Err(Refusal::UnknownObject));
    expect!(rt; !heap.has_refused());
    drop(values);
}

/// A site that applies the first update, once there is no memory left.
fn site_of_first<'a>(
    rt: &impl Abort,
    heap: Heap<'a>,
    primary: &Primary<Heap<'a>>,
) -> Site<Heap<'a>> {
    heap.allow_all();
    let mut site = made(rt, Site::new(heap, primary.setup().objects()));
    heap.allow(0);
    expect!(rt; primary.log().len() == 3);
    let set = primary.log().set(1);
    expect!(rt; set.are_known(site.len()));
    expect!(rt; site.values().allows(set));
    expect!(rt; site.applied() == 0);
    site.apply(set);
    expect_eq!(rt; site.applied(), 1);
    site
}

/// What a site comes to that applies the first update: x and y travelled 3.
fn expect_site<'a>(rt: &impl Abort, site: &Site<Heap<'a>>) {
    expect!(rt; site.len() == 2);
    expect_eq!(rt; site.travelled(x()), 3);
    expect_eq!(rt; site.travelled(y()), 3);
    expect_eq!(rt; site.value(y()), 13);
}

/// What a query reads at that site whose reference is the second update: by both x travelled 3, and y 4.
fn expect_reads<'a>(rt: &impl Abort, site: &Site<Heap<'a>>, query: &mut Query<Heap<'a>>) {
    expect!(rt; site.len() == 2);
    expect!(rt; query.objects() == 2);
    let of_x = ReadAnswer {
        value: 3,
        import: 0,
        total: 0,
    };
    let of_y = ReadAnswer {
        value: 13,
        import: 1,
        total: 1,
    };
    expect!(rt; query.read(site, x()) == Ok(of_x));
    expect!(rt; query.read(site, y()) == Ok(of_y));
    expect!(rt; query.read(site, y()) == Err(Refusal::OverImport));
}

/// Applies the first update at a site, and reads there.
fn expect_query<'a>(rt: &impl Abort, heap: Heap<'a>, primary: &Primary<Heap<'a>>) {
    heap.allow_all();
    let marks = made(rt, primary.marks());
    let site = site_of_first(rt, heap, primary);
    expect_site(rt, &site);
    let mut query = made(rt, Query::begin(2, marks, 1));
    expect_reads(rt, &site, &mut query);
    let answer = query.end();
    expect!(rt; answer == QueryAnswer { place: 2, sum: 16, total: 1, reads: 2, });
    expect!(rt; !heap.has_refused());
    drop(site);
}

/// Compares the record of a with itself and with that of b.
fn expect_compared<'a>(rt: &impl Abort, heap: Heap<'a>, primary: &Primary<Heap<'a>>) {
    heap.allow_all();
    let of_a = made(rt, record_of(heap, primary, a()));
    let again = made(rt, record_of(heap, primary, a()));
    let of_b = made(rt, record_of(heap, primary, b()));
    heap.allow(0);
    expect!(rt; of_a.same(&again));
    expect!(rt; !of_a.same(&of_b));
    expect!(rt; !heap.has_refused());
    of_a.discard();
    again.discard();
    of_b.discard();
}

/// Applies an update, tests its conditions, reads at a site, and compares records.
// shows: no memory
#[test]
fn values_conditions_sites_queries_and_records_take_no_memory(rt: HostRuntime) {
    let scarce = Scarce::new(rt.alloc(), u64::MAX);
    let world = made(&rt, grouped(&scarce));
    expect_values(&rt, &scarce, world.primary());
    expect_conditions(&rt, &scarce, world.primary());
    expect_query(&rt, &scarce, world.primary());
    expect_compared(&rt, &scarce, world.primary());
    world.discard();
}
