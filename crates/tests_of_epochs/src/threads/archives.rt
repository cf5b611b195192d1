//! `keep` puts each epoch that has ended into its archive. Each record of a site begins with what the one before ended with, so records
//! are a series only where each epoch came once, and in its order; and each epoch has one update, which has a round at a.
use crate::expect::made;
use crate::fixtures::{apply_at, enter, opened, propose};
use ordup_check::{SeriesReadFault, SeriesVerdict, audit_series, record_of, write_record};
use ordup_cluster::{Closed, OpenGate, Session};
use ordup_epochs::{Archive, Epochs};
use ordup_limits::Scope;
use ordup_objects::SiteId;
use std::alloc::Global;
use std::mem;
use std::process::Abort;
use std::sync::{Mutex, Wait};
use std::test::Fail;
use std::time::Clock;
use test_cluster_fixtures::{Parts, TURNS, do_four};
use test_fixtures::{Site, a, b, expect, expect_eq};

/// The site a may not lag at all, and b by any number.
const SITES: [Site; 2] = [("a", 4, Some((Scope::All, 0))), ("b", 4, None)];

/// How many epochs `keep` ends. After these there is one more, in which nothing happens.
const EPOCHS: u64 = 4;

/// Writes the record of a site behind others. It answers whether it did.
fn write_one(alloc: Global, ended: &Closed, site: SiteId, text: &mut Vec<u8>) -> bool {
    match record_of(alloc, ended.primary(), site) {
        Ok(record) => {
            let written = write_record(alloc, &record, text);
            record.discard();
            written.is_ok()
        }
        Err(_) => false,
    }
}

/// An archive of the records of both sites. The first few times it cannot write, as on a full disk. Then it keeps what it is given, and
/// writes that the next time.
#[derive(Drop)]
struct Records {
    alloc: Global,
    /// How many times more it cannot write.
    full: u64,
    /// What is not written yet.
    waiting: Vec<Closed>,
    of_a: Vec<u8>,
    of_b: Vec<u8>,
    /// There was no memory for what it was given.
    is_lost: bool,
}

impl Records {
    fn new(alloc: Global, full: u64) -> Records {
        Records {
            alloc,
            full,
            waiting: Vec::new(alloc),
            of_a: Vec::new(alloc),
            of_b: Vec::new(alloc),
            is_lost: false,
        }
    }

    fn write_waiting(&mut self) {
        for ended in mem::replace(&mut self.waiting, Vec::new(self.alloc)) {
            let is_written = write_one(self.alloc, &ended, a(), &mut self.of_a)
                && write_one(self.alloc, &ended, b(), &mut self.of_b);
            self.is_lost = self.is_lost || !is_written;
            ended.discard();
        }
    }

    fn put(&mut self, ended: Closed) {
        if self.waiting.push(ended).is_err() {
            self.is_lost = true;
        }
    }
}

impl Archive for Records {
    fn add<R: Wait>(&mut self, _rt: &R, ended: Closed) {
        self.put(ended);
        match self.full.checked_sub(1) {
            Some(full) => self.full = full,
            None => self.write_waiting(),
        }
    }
}

#[derive(Clone, Copy)]
struct All<'a> {
    alloc: Global,
    epochs: &'a Epochs,
    archive: &'a Mutex<Records>,
}

/// Updates each in an epoch of its own, and a visit to the one after them.
fn call<R: Wait + Abort>(rt: &R, epochs: &Epochs) {
    let mut session = Session::new();
    for number in 1..=EPOCHS {
        let epoch = enter(rt, epochs);
        expect_eq!(rt; propose(rt, &epoch, &mut session, TURNS), Ok(number));
        drop(epoch);
    }
    drop(enter(rt, epochs));
    epochs.stop(rt);
}

/// The appliers, `keep`, and the caller.
impl<R: Wait + Clock + Abort> Parts<R> for All<'_> {
    fn part(&self, rt: &R, number: u8) {
        match number {
            0 | 1 => apply_at(rt, self.epochs, number, &OpenGate),
            2 => {
                let mut archive = self.archive.lock(rt);
                let kept = self.epochs.keep(rt, self.alloc, 1, &mut *archive);
                expect_eq!(rt; kept, Ok(EPOCHS));
            }
            _ => call(rt, self.epochs),
        }
    }
}

/// The verdict of an auditor on records, one behind the other.
fn verdict_on(alloc: Global, text: &Vec<u8>) -> Result<SeriesVerdict, SeriesReadFault> {
    audit_series(alloc, &mut text.as_slice())
}

/// The records of all epochs with those of the last one.
fn expect_series(rt: &impl Abort, alloc: Global, mut records: Records, last: Closed) {
    records.put(last);
    records.write_waiting();
    expect!(rt; !records.is_lost);
    expect_eq!(rt; verdict_on(alloc, &records.of_a), Ok(SeriesVerdict::Fewest(EPOCHS)));
    expect_eq!(rt; verdict_on(alloc, &records.of_b), Ok(SeriesVerdict::Fewest(0)));
    drop(records);
}

/// Archives that can write at once, from the third time on, and once `keep` has ended.
// shows: archives
#[test]
fn the_records_in_an_archive_are_a_series(rt: HostRuntime) -> Result<(), Fail> {
    for full in [0, 2, EPOCHS] {
        let epochs = opened(rt.alloc(), &SITES, 1)?;
        let archive = Mutex::new(Records::new(rt.alloc(), full));
        let all = All {
            alloc: rt.alloc(),
            epochs: &epochs,
            archive: &archive,
        };
        do_four(&rt, &all, 0);
        let last = made(&rt, epochs.close());
        expect_series(&rt, rt.alloc(), archive.into_inner(), last);
    }
    Ok(())
}
