use crate::declarations::{OBJECT_COUNT, SITE_COUNT, declare};
use crate::kind::Kind;
use crate::random::Random;
use anyhow::bail;
use ordup_objects::{Change, MessageSet, ObjectId, Op, Refusal, SiteId};
use ordup_world::{Answer, Event, Settled, Setup, World};
use std::alloc::{Allocator, Global};

/// A site that lags reports each time it has applied this many updates.
const UPDATES_UNREPORTED: u64 = 1_000;

/// A store under load.
#[derive(Drop)]
pub(crate) struct Load<A: Allocator + Copy = Global> {
    alloc: A,
    kind: Kind,
    random: Random,
    world: World<A>,
    /// How many more events are wanted. An update that has begun is carried to its end, where it may take more than these.
    left: u64,
    proposed: u64,
    acknowledged: u64,
}

impl<A: Allocator + Copy> Load<A> {
    /// A started store, in which nothing has happened, and how many events are wanted.
    pub(crate) fn start(alloc: A, kind: Kind, events: u64) -> Result<Self, Refusal> {
        let mut setup = Setup::new(alloc);
        if let Err(refusal) = declare(&mut setup, kind) {
            setup.discard();
            return Err(refusal);
        }
        let world = World::start(alloc, setup)?;
        Ok(Load {
            alloc,
            kind,
            random: Random::new(),
            world,
            left: events,
            proposed: 0,
            acknowledged: 0,
        })
    }

    /// Makes updates, and prints what has become of the store.
    pub(crate) fn run_and_print(&mut self, rt: &impl Print) -> anyhow::Result<()> {
        self.run()?;
        self.print(rt)
    }

    /// Makes updates until no more events are wanted. An update takes one event at least.
    fn run(&mut self) -> Result<(), Refusal> {
        for _ in 0..self.left {
            if self.left == 0 {
                break;
            }
            self.update()?;
        }
        Ok(())
    }

    /// One update: it is proposed, sent to every site, applied there and settled, and then sites report.
    fn update(&mut self) -> Result<(), Refusal> {
        let set = self.draw_set()?;
        self.take(Event::Propose(set))?;
        for index in 0..SITE_COUNT {
            let site = SiteId::new(index);
            self.take(Event::Send(site))?;
            self.take(Event::Apply(site))?;
        }
        self.settle()?;
        for index in 0..SITE_COUNT {
            let site = SiteId::new(index);
            if self.is_time_to_report(site) {
                self.take(Event::Report(site))?;
            }
        }
        Ok(())
    }

    /// A set of one change, which adds to an object four times in five, and sets one else.
    fn draw_set(&mut self) -> Result<MessageSet<A>, Refusal> {
        let object = ObjectId::new(self.random.below(OBJECT_COUNT as u64) as u16);
        let is_set = self.random.one_in(5);
        let amount = self.random.below(2_001) as i64 - 1_000;
        let op = if is_set {
            Op::Set(amount)
        } else {
            Op::Add(amount)
        };
        MessageSet::single(
            self.world.primary().setup().objects(),
            Change { object, op },
        )
    }

    /// Settles the update. Where it has a forced round, each site of the round reports, and it is settled again.
    fn settle(&mut self) -> Result<(), Refusal> {
        if let Answer::Settlement(Settled::Round { sites, .. }) = self.step(Event::Settle)? {
            for site in sites.as_slice() {
                self.take(Event::Report(*site))?;
            }
            self.take(Event::Settle)?;
        }
        Ok(())
    }

    fn is_time_to_report(&mut self, site: SiteId) -> bool {
        if self.kind.lags(site) {
            self.proposed % UPDATES_UNREPORTED == 0
        } else {
            self.random.one_in(2)
        }
    }

    /// Steps the store by an event, which is not to be refused, and passes its answer over.
    fn take(&mut self, event: Event<A>) -> Result<(), Refusal> {
        let answer = self.step(event)?;
        drop(answer);
        Ok(())
    }

    /// Steps the store by an event, which is not to be refused.
    fn step(&mut self, event: Event<A>) -> Result<Answer<A>, Refusal> {
        self.left = self.left.saturating_sub(1);
        let answer = self.world.step(event);
        match &answer {
            Answer::Proposed(number) => self.proposed = *number,
            Answer::Settlement(Settled::Acked(number)) => self.acknowledged = *number,
            Answer::Refused(refusal) => return Err(*refusal),
            _ => {}
        }
        Ok(answer)
    }

    /// Prints the numbers of the log and of each site, with its values.
    fn print(&mut self, rt: &impl Print) -> anyhow::Result<()> {
        println!(rt; "proposed {}", self.proposed)?;
        println!(rt; "acknowledged {}", self.acknowledged)?;
        for index in 0..SITE_COUNT {
            self.print_site(rt, SiteId::new(index))?;
        }
        Ok(())
    }

    fn print_site(&mut self, rt: &impl Print, site: SiteId) -> anyhow::Result<()> {
        let Answer::Shown {
            sent,
            applied,
            reported,
            rounds,
            values,
        } = self.step(Event::Show(site))?
        else {
            bail!("the site {} is not shown", site.index());
        };
        let mut line = format!(in self.alloc;
            "site {} sent {sent} applied {applied}",
            site.index()
        )?;
        write!(line, " reported {reported} rounds {rounds} values")?;
        for value in values.as_slice() {
            write!(line, " {value}")?;
        }
        println!(rt; "{line}")?;
        Ok(())
    }

    /// Gives the memory of the store back.
    pub(crate) fn discard(self) {
        self.world.discard();
    }
}
