//! What is left of a cluster.
ghost use Rattle.std.specs.Prelude.{◌<◌, length};

use crate::asking::print_refused;
use ordup_cluster::{Closed, Cluster};
use ordup_objects::{ObjectId, SiteId};
use std::io;

/// x and y.
const OBJECTS: u16 = 2;

/// Closes a cluster, and prints what its log and its sites hold. It takes no memory.
pub(crate) fn close(rt: &impl Print, cluster: Cluster) -> io::Result<()> {
    match cluster.close() {
        Ok(closed) => {
            let printed = print_closed(rt, &closed);
            closed.discard();
            printed
        }
        Err(refusal) => print_refused(rt, "close", refusal),
    }
}

fn print_closed(rt: &impl Print, closed: &Closed) -> io::Result<()> {
    print_log(rt, closed)?;
    closed.primary().keeps();
    for index in 0..closed.primary().setup().sites() {
        print_site(rt, closed, SiteId::new(index as u8))?;
    }
    Ok(())
}

/// How many updates the log has, and the values after them.
fn print_log(rt: &impl Print, closed: &Closed) -> io::Result<()> {
    let log = closed.primary().log();
    print!(rt; "log {} values", log.len())?;
    for index in 0..OBJECTS {
        let object = ObjectId::new(index);
        if object.index() < log.objects() {
            print!(rt; " {}", log.end_value(object))?;
        }
    }
    println!(rt)
}

/// How many updates a site applied, how many rounds it had, and the values that it holds.
fn print_site(rt: &impl Print, closed: &Closed, site: SiteId) -> io::Result<()>
    requires { site < length closed.now.sites }
{
    closed.primary().keeps();
    let rounds = closed.primary().rounds(site).len();
    let held = closed.site(site);
    print!(rt; "site applied {} rounds {rounds} values", held.applied())?;
    for value in held.values().as_slice() {
        print!(rt; " {value}")?;
    }
    println!(rt)
}
