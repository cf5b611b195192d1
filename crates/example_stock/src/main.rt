//! A stock service: two shops sell tea from one stock. The shop in the south may lag by six bags.
#![tactic(auto)]

use anyhow::{Result, bail};
use ordup_limits::Scope;
use ordup_objects::{Change, MessageSet, Name, ObjectId, Op, Refusal, SiteId};
use ordup_world::{Answer, Event, Settled, Setup, World};
use std::alloc::Global;

#[derive(Drop)]
struct Stock {
    world: World,
    tea: ObjectId,
    north: SiteId,
    south: SiteId,
}

fn main(rt: HostRuntime) -> Result<()> {
    let mut stock = Stock::open(rt.alloc())?;
    let sold = stock.sell(&rt);
    stock.world.discard();
    sold
}

/// 40 bags of tea and two shops. The north has no limit.
fn declare(setup: &mut Setup) -> Result<(ObjectId, SiteId, SiteId), Refusal> {
    let tea = setup.object(b"tea", 40)?;
    let north = setup.site(b"north", 8)?;
    let south = setup.site(b"south", 8)?;
    setup.limit(south, Scope::Object(tea), 6)?;
    Ok((tea, north, south))
}

impl Stock {
    /// The stock, in which nothing has happened.
    fn open(alloc: Global) -> Result<Self, Refusal> {
        let mut setup = Setup::new(alloc);
        let (tea, north, south) = declare(&mut setup)?;
        let world = World::start(alloc, setup)?;
        Ok(Stock {
            world,
            tea,
            north,
            south,
        })
    }

    /// A sale of five bags, a return of two, and a look at the shops.
    fn sell(&mut self, rt: &impl Print) -> Result<()> {
        self.change(rt, -5)?;
        self.look(rt, "south", self.south)?;
        self.change(rt, 2)?;
        self.look(rt, "south", self.south)?;
        self.look(rt, "north", self.north)
    }

    /// Changes the stock. A shop that would lag too far has to catch up first.
    fn change(&mut self, rt: &impl Print, bags: i64) -> Result<()> {
        let change = Change {
            object: self.tea,
            op: Op::Add(bags),
        };
        let set = MessageSet::single(self.world.primary().setup().objects(), change)?;
        if let Answer::Refused(refusal) = self.world.step(Event::Propose(set)) {
            bail!("the change by {bags} bags was refused: {refusal}");
        }
        if let Answer::Settlement(Settled::Round { k, sites }) = self.world.step(Event::Settle) {
            println!(rt;
                "update {k} waits for {} of 2 shops",
                sites.as_slice().len()
            )?;
            for site in sites.as_slice() {
                self.catch_up(*site, k);
            }
            self.world.step(Event::Settle);
        }
        println!(rt;
            "{bags} bags: acknowledged up to update {}",
            self.world.primary().acked()
        )?;
        Ok(())
    }

    /// Brings a shop up to an update, and lets it report. A send or an application too many is refused, and changes nothing.
    fn catch_up(&mut self, shop: SiteId, number: u64) {
        for _ in 0..number {
            self.world.step(Event::Send(shop));
            self.world.step(Event::Apply(shop));
        }
        self.world.step(Event::Report(shop));
    }

    /// Reads the stock at a shop. The value may be at most ten bags off.
    fn look(&mut self, rt: &impl Print, name: &str, site: SiteId) -> Result<()> {
        let (query, object) = (Name::new(b"look")?, self.tea);
        self.world.step(Event::Begin {
            query,
            site,
            limit: 10,
        });
        let Answer::ReadOut(read) = self.world.step(Event::Read { query, object }) else {
            bail!("{name} is too far off");
        };
        self.world.step(Event::End(query));
        println!(rt;
            "{name} sees {} bags, at most {} off",
            read.value, read.import
        )?;
        Ok(())
    }
}
