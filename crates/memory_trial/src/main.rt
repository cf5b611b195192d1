//! The program `memory_trial` makes the calls of a feed, of a cluster and of a service that starts successors, as far as they may
//! be refused memory, on one thread, and prints how each ended. A call that is refused memory is made a second time. Where it is
//! refused again, the trial ends with what stands then. `checks/allocations` refuses it one allocation after the other.
#![tactic(auto)]

mod asking;
mod closing;
mod clusters;
mod declarations;
mod successors;

use asking::{Stop, ask};
use clusters::{try_cluster_that_waits, try_cluster_with_new_limits, try_cluster_without_limits};
use declarations::{declare_objects, one_change, two_changes};
use ordup_feed::Feed;
use ordup_objects::ObjectTable;
use std::alloc::Global;
use std::process::ExitCode;
use std::sync::Wait;
use successors::{try_successors, try_successors_that_wait};

fn main(rt: HostRuntime) -> ExitCode {
    match try_all(&rt, rt.alloc()) {
        Ok(()) => ExitCode::from(0),
        Err(Stop::NoMemory) => {
            let _ = eprintln!(rt; "no memory");
            ExitCode::from(4)
        }
        Err(Stop::Unprinted) => ExitCode::from(3),
    }
}

fn try_all<R: Wait + Print>(rt: &R, alloc: Global) -> Result<(), Stop> {
    let objects = ask(rt, "objects", || declare_objects(alloc))?;
    let tried = try_calls(rt, alloc, &objects);
    drop(objects);
    tried
}

fn try_calls<R: Wait + Print>(rt: &R, alloc: Global, objects: &ObjectTable) -> Result<(), Stop> {
    let ends = ask(rt, "feed", || Feed::new(alloc, objects, 4))?;
    drop(ends);
    let one = ask(rt, "set", || one_change(objects))?;
    let two = ask(rt, "set", || two_changes(objects))?;
    try_cluster_without_limits(rt, alloc, &[&one])?;
    try_cluster_without_limits(rt, alloc, &[&two, &one])?;
    try_cluster_with_new_limits(rt, alloc, &one, &two)?;
    try_cluster_that_waits(rt, alloc, &two)?;
    try_successors(rt, alloc, &two)?;
    try_successors_that_wait(rt, alloc, &one, &two)
}
