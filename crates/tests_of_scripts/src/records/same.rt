//! Which records say the same.
use crate::records::fixtures::record_in;
use std::alloc::Global;
use std::process::Abort;
use std::test::Fail;
use test_fixtures::expect;

/// A record with rows of every kind. Whether it is valid does not matter here.
const ONE: &str = "\
ordup,1,a,2
object,1,x,0
object,2,y,10
object,3,z,0
member,1,g,x
member,2,g,y
member,3,h,y
limit,1,object:x,5
limit,2,all,100
change,1,1,add:x:3
change,1,2,add:y:-3
change,2,1,set:x:9
report,1,1,-
report,2,2,-
round,1,2,-
window,1,0,1
window,2,1,2
";

/// Rows of the record, each with another that stands in its place, or with none. No such record says the same.
const CHANGES: &str = "\
ordup,1,a,2 ordup,1,b,2
object,3,z,0 object,3,w,0
object,1,x,0 object,1,x,1
object,3,z,0
member,1,g,x member,1,k,x
member,3,h,y member,3,h,x
member,3,h,y member,3,g,z
member,3,h,y
limit,1,object:x,5 limit,1,object:y,5
limit,1,object:x,5 limit,1,object:x,6
limit,2,all,100
change,1,1,add:x:3 change,1,1,add:x:4
change,1,1,add:x:3 change,1,1,max:x:3
change,1,1,add:x:3 change,1,1,add:z:3
change,1,2,add:y:-3
change,2,1,set:x:9 change,2,1,take:x:y
report,2,2,- report,2,3,-
report,2,2,-
round,1,2,- round,1,1,-
round,1,2,-
window,2,1,2 window,2,0,2
window,2,1,2 window,2,1,1
window,2,1,2
";

/// The same limits, in the second version.
const SECOND_VERSION: &str = "\
ordup,2,a,2
object,1,x,0
object,2,y,10
object,3,z,0
member,1,g,x
member,2,g,y
member,3,h,y
limit,1,object:x,5@1
limit,2,all,100@1
change,1,1,add:x:3
change,1,2,add:y:-3
change,2,1,set:x:9
report,1,1,-
report,2,2,-
round,1,2,-
window,1,0,1
window,2,1,2
";

/// One of the limits begins later.
const LATER_LIMIT: &str = "\
ordup,2,a,2
object,1,x,0
object,2,y,10
object,3,z,0
member,1,g,x
member,2,g,y
member,3,h,y
limit,1,object:x,5@1
limit,2,all,100@2
change,1,1,add:x:3
change,1,2,add:y:-3
change,2,1,set:x:9
report,1,1,-
report,2,2,-
round,1,2,-
window,1,0,1
window,2,1,2
";

/// A limit begins again.
const ONE_ENTRY_MORE: &str = "\
ordup,2,a,2
object,1,x,0
object,2,y,10
object,3,z,0
member,1,g,x
member,2,g,y
member,3,h,y
limit,1,object:x,5@1
limit,2,all,100@1
limit,3,all,100@2
change,1,1,add:x:3
change,1,2,add:y:-3
change,2,1,set:x:9
report,1,1,-
report,2,2,-
round,1,2,-
window,1,0,1
window,2,1,2
";

/// One update more is decided.
const ONE_UPDATE_MORE: &str = "\
ordup,1,a,3
object,1,x,0
object,2,y,10
object,3,z,0
member,1,g,x
member,2,g,y
member,3,h,y
limit,1,object:x,5
limit,2,all,100
change,1,1,add:x:3
change,1,2,add:y:-3
change,2,1,set:x:9
change,3,1,set:x:9
report,1,1,-
report,2,2,-
round,1,2,-
window,1,0,1
window,2,1,2
";

/// Sees whether the records in two texts say the same, asked of each of them.
fn expect_same(rt: &impl Abort, alloc: Global, these: &str, those: &str, wanted: bool) {
    let Ok(one) = record_in(alloc, these) else {
        panic!(rt; "this is no record: {these}")
    };
    let Ok(other) = record_in(alloc, those) else {
        panic!(rt; "this is no record: {those}")
    };
    let are_same = [one.same(&other), other.same(&one)];
    drop(one);
    drop(other);
    expect!(rt; are_same == [wanted, wanted], those);
}

/// Compares a record with itself, and with records that differ in a row.
// shows: Record::same
#[test]
fn only_records_of_the_same_rows_are_the_same(rt: HostRuntime) -> Result<(), Fail> {
    for (text, wanted) in [
        (ONE, true),
        (SECOND_VERSION, true),
        (LATER_LIMIT, false),
        (ONE_ENTRY_MORE, false),
        (ONE_UPDATE_MORE, false),
    ] {
        expect_same(&rt, rt.alloc(), ONE, text, wanted);
    }
    for change in CHANGES.lines() {
        let (row, other) = change.split_once(' ').unwrap_or((change, ""));
        let changed = ONE.replace(rt.alloc(), row, other)?;
        expect_same(&rt, rt.alloc(), ONE, changed.as_str(), false);
    }
    Ok(())
}
