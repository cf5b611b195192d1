//! A tea service that never stops, and keeps its audit. A clerk sells, and two shops follow. Whenever a store has four sales, another
//! thread starts its successor, and prints the record of the south. The records are a series, which `ordup check --series` reads.
#![tactic(auto)]

use anyhow::{Result, bail};
use ordup_cluster::{Closed, OpenGate, Session};
use ordup_epochs::{Archive, Epochs};
use ordup_limits::Scope;
use ordup_objects::{Change, MessageSet, ObjectId, ObjectTable, Op, Refusal, SiteId};
use ordup_primary::Setup;
use ordup_record::view_of;
use ordup_rows::{RecordWriteFault, write_view};
use std::alloc::Global;
use std::io::Write;
use std::sync::Wait;
use std::thread;
use std::thread::Threads;
use std::time::Clock;

/// After how many sales a store has a successor.
const SALES: u64 = 4;

/// For how many turns the clerk waits until a sale is acknowledged, and pauses until the south has applied it.
const TURNS: u64 = 1_000_000;

fn main(rt: HostRuntime) -> Result<()> {
    let mut output = rt.stdout();
    let epochs = open(rt.alloc())?;
    let mut records = Records::new(rt.alloc(), &mut output);
    let served = serve(&rt, rt.alloc(), &epochs, &mut records);
    close(epochs, &mut records)?;
    served?;
    records.end()
}

/// Prints the record of the south of each store that it is given.
#[derive(Drop)]
struct Records<'a, W> {
    alloc: Global,
    output: &'a mut W,
    /// Why a record was not printed. No more are printed then.
    fault: Option<RecordWriteFault>,
}

impl<'a, W: Write> Records<'a, W> {
    fn new(alloc: Global, output: &'a mut W) -> Records<'a, W> {
        Records {
            alloc,
            output,
            fault: None,
        }
    }

    fn print(&mut self, ended: &Closed) {
        if self.fault.is_none() {
            self.fault = self.print_south(ended).err();
        }
    }

    fn print_south(&mut self, ended: &Closed) -> Result<(), RecordWriteFault> {
        match view_of(ended.primary(), south()) {
            Ok(record) => write_view(self.alloc, &record, self.output),
            Err(_) => Err(RecordWriteFault::Write),
        }
    }

    /// It is an error where a record was not printed.
    fn end(self) -> Result<()> {
        match self.fault {
            None => Ok(()),
            Some(RecordWriteFault::Write) => bail!("a record could not be written"),
            Some(RecordWriteFault::NoMemory) => bail!("there was no memory for a record"),
        }
    }
}

impl<W: Write> Archive for Records<'_, W> {
    fn add<R: Wait>(&mut self, _rt: &R, ended: Closed) {
        self.print(&ended);
        ended.discard();
    }
}

fn south() -> SiteId {
    SiteId::new(1)
}

/// 1,000 bags of tea, and the shops north and south. The south may lag by 4 bags. The north has no limit, so no sale waits for it.
fn declare(setup: &mut Setup) -> Result<(), Refusal> {
    let tea = setup.object(b"tea", 1_000)?;
    setup.site(b"north", 1_024)?;
    let south = setup.site(b"south", 1_024)?;
    setup.limit(south, Scope::Object(tea), 4)
}

fn open(alloc: Global) -> Result<Epochs, Refusal> {
    let mut setup = Setup::new(alloc);
    declare(&mut setup)?;
    Epochs::new(alloc, setup, SALES)
}

/// Runs the shops and the stores until the clerk is done.
fn serve<A: Archive + Send, R: Threads + Wait + Clock + Sync>(
    rt: &R,
    alloc: Global,
    epochs: &Epochs,
    archive: &mut A,
) -> Result<()> {
    let (started, sold) = thread::join(
        rt,
        move || follow(rt, alloc, epochs, archive),
        move || {
            let sold = sell(rt, epochs);
            epochs.stop(rt);
            sold
        },
    );
    started?;
    sold?;
    Ok(())
}

/// Starts a successor whenever a store has its sales, while the shops follow, until the service is stopped.
fn follow<A: Archive + Send, R: Threads + Wait + Clock + Sync>(
    rt: &R,
    alloc: Global,
    epochs: &Epochs,
    archive: &mut A,
) -> Result<u64, Refusal> {
    let (started, _) = thread::join(
        rt,
        move || epochs.keep(rt, alloc, TURNS, archive),
        move || apply(rt, epochs),
    );
    started
}

/// The two shops, until the service is stopped.
fn apply<R: Threads + Wait + Sync>(rt: &R, epochs: &Epochs) {
    let _ = thread::join(
        rt,
        move || epochs.applier(rt, SiteId::new(0), &OpenGate),
        move || epochs.applier(rt, south(), &OpenGate),
    );
}

/// Ten sales: 3 bags, then 5, and so on. A sale of 5 bags waits for the south.
fn sell<R: Wait>(rt: &R, epochs: &Epochs) -> Result<(), Refusal> {
    let mut session = Session::new();
    for number in 0..10u64 {
        sell_one(rt, epochs, &mut session, 3 + number % 2 * 2)?;
    }
    Ok(())
}

/// Sells this many bags, and waits until the sale is acknowledged and the south has applied it. So each run has the same records.
fn sell_one<R: Wait>(
    rt: &R,
    epochs: &Epochs,
    session: &mut Session,
    bags: u64,
) -> Result<(), Refusal> {
    let epoch = epochs.enter(rt)?;
    let set = sale(epoch.objects(), bags)?;
    epoch.propose(rt, session, set, TURNS)?;
    epoch.read_when_level(rt, session, south(), ObjectId::new(0), TURNS)?;
    Ok(())
}

/// The message set of a sale: it takes this many bags off.
fn sale(objects: &ObjectTable, bags: u64) -> Result<MessageSet, Refusal> {
    let change = Change {
        object: ObjectId::new(0),
        op: Op::Add(-(bags.min(1_000) as i64)),
    };
    MessageSet::single(objects, change)
}

/// Compares each shop with the log of the last store, and prints the record of that too.
fn close<W: Write>(epochs: Epochs, records: &mut Records<'_, W>) -> Result<()> {
    match epochs.close() {
        Ok(ended) => {
            records.print(&ended);
            ended.discard();
            Ok(())
        }
        Err(refusal) => bail!("a shop does not agree with the log: {refusal}"),
    }
}
