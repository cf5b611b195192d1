//! The program `bench_calls`: makes calls of the libraries, which `bench/` measures beside the same work in plain Rust. It steps a
//! store with limits through events that a small generator makes, and prints what has become of it. Or it sends parcels through a
//! feed from one thread to another, and prints how many were taken.
#![tactic(auto)]

mod carrying;
mod declarations;
mod kind;
mod load;
mod parcels;
mod random;

use anyhow::{Result, bail};
use carrying::carry;
use kind::Kind;
use load::Load;
use ordup_objects::sizes::MOST_UPDATES;
use std::alloc::Global;
use std::env;
use std::io::Print;
use std::sync::Wait;
use std::thread::Threads;

fn main(rt: HostRuntime) -> Result<()> {
    let alloc = rt.alloc();
    let words: Vec<String> = env::args(&rt)?.collect(alloc)?;
    let [_, what, count] = words.as_slice() else {
        bail!("usage: bench_calls KIND EVENTS, or bench_calls CAPACITY PARCELS");
    };
    let Ok(count) = count.parse::<u64>() else {
        bail!("this is no count: {count}");
    };
    match Kind::of(what.as_str()) {
        Some(kind) => step(&rt, alloc, kind, count),
        None => send(&rt, alloc, what.as_str(), count),
    }
}

/// Steps a store through this many events.
fn step(rt: &impl Print, alloc: Global, kind: Kind, events: u64) -> Result<()> {
    let mut load = Load::start(alloc, kind, events)?;
    let printed = load.run_and_print(rt);
    load.discard();
    printed
}

/// Sends this many parcels, 1,000,000 at most, through a feed of the capacity that a word names.
fn send(
    rt: &(impl Threads + Wait + Sync + Print),
    alloc: Global,
    capacity: &str,
    count: u64,
) -> Result<()> {
    match capacity.parse::<u64>() {
        Ok(capacity) if count <= MOST_UPDATES as u64 => {
            let taken = carry(rt, alloc, capacity, count)?;
            println!(rt; "taken {taken}")?;
            Ok(())
        }
        _ => bail!("there is no load {capacity} of {count}"),
    }
}
