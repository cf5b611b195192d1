//! Which growths the lines of scripts meet.
use test_memory_fixtures::GROUPED;

/// Transcripts with marks: a line that begins with `>` is one of a script, the next one is its answer. The mark after `>` is `+`
/// where the line meets a growth, `-` where the call takes no memory, and `?` where it may meet one: a list grows by several places
/// at once, so its next growth is some updates away.
///
/// Growths that were met, each of them refused here: of a first `object` 4, which a table of names makes, and so of a first `site`
/// 5, with the list of its limits, and of a first `group` 6, with its members and the list that the line makes of them; of a
/// `limit` 1. Of a `start` 14, with a limit 15, and with two sites of a limit each 23. Of a first `propose` of one change 3: the
/// list of the sets, that of the moves and that of where they begin. With two changes 4: the list of the changes too. A later one
/// meets that again, and each list that is full; each 256th also a row of marks. Of a `relimit` that adds an entry 1, and of one
/// that replaces an entry or is refused none. Of a first `settle` that forces a site 3: what it reported, its rounds and its
/// windows; of one that forces none, before any report, none. Of a first `begin` 5, with its marks, and of a later one 1; of a
/// `show` 1. A `certify` meets none.
pub(crate) const TRANSCRIPTS: [&str; 5] = [
    // The first run, whole.
    "\
>+ object x 0
ok object x
>+ site a 4
ok site a
>+ start
ok start
>+ propose add:x:5
ok proposed 1
>- send a
ok sent a 1
>- apply a
ok applied a 1
>+ show a
ok show a sent 1 applied 1 reported 0 rounds 0 x=5
",
    // A round that is waited for: 5 is allowed, and 5 + 1 is over it.
    "\
>+ object x 0
ok object x
>? object y 10
ok object y
>+ site a 4
ok site a
>+ limit a object x 5
ok limit a
>+ start
ok start
>+ propose add:x:5
ok proposed 1
>- settle
ok acked 1
>? propose add:x:1
ok proposed 2
>+ settle
ok round 2 a
>- certify a
ok certified a 1 0-2
>- settle
ok waiting 2 a
>- send a
ok sent a 1
>- send a
ok sent a 2
>- apply a
ok applied a 1
>- report a
ok reported a 1
>- settle
ok waiting 2 a
>- apply a
ok applied a 2
>- report a
ok reported a 2
>- settle
ok acked 2
>- certify a
ok certified a 1 0-2
>+ show a
ok show a sent 2 applied 2 reported 2 rounds 1 x=6 y=10
",
    // A query that imports 3 of the 4 that it may, and one that is given up.
    "\
>+ object x 0
ok object x
>? object y 10
ok object y
>+ site a 4
ok site a
>+ limit a object x 5
ok limit a
>+ start
ok start
>+ propose add:x:3
ok proposed 1
>- settle
ok acked 1
>- send a
ok sent a 1
>+ begin q a 4
ok begun q 1
>- read q x
ok read q x value 0 import 3 total 3
>- apply a
ok applied a 1
>- read q x
ok read q x value 3 import 0 total 3
>? propose add:x:2
ok proposed 2
>- send a
ok sent a 2
>- apply a
ok applied a 2
>- read q x
refused 20 OverImport
>- end q
ok end q place 1 sum 3 total 3 reads 2
>+ begin r a 0
ok begun r 1
>- abandon r
ok abandoned r
",
    // Limits that change: from the second update on 3 on x, which 3 and 1 are over, and 1 on the count; from the third on 0 on x.
    "\
>+ object x 0
ok object x
>? object y 10
ok object y
>+ site a 4
ok site a
>+ limit a object x 5
ok limit a
>+ start
ok start
>- relimit a object x 9
ok relimit a 1
>+ propose add:x:3
ok proposed 1
>- settle
ok acked 1
>- relimit a object x 2
refused 25 LagOver
>+ relimit a object x 3
ok relimit a 2
>- relimit a object x 3
ok relimit a 2
>? relimit a count 1
ok relimit a 2
>- relimit a count 0
refused 25 LagOver
>? propose add:x:1
ok proposed 2
>+ settle
ok round 2 a
>- relimit a object x 9
refused 24 HeadPending
>- send a
ok sent a 1
>- send a
ok sent a 2
>- apply a
ok applied a 1
>- apply a
ok applied a 2
>- report a
ok reported a 2
>- settle
ok acked 2
>? relimit a object x 0
ok relimit a 3
>? propose add:x:1
ok proposed 3
>? settle
ok round 3 a
>- certify a
ok certified a 2 0-2 2-3
",
    GROUPED,
];
