//! The program `bench_threads`: shares a store among threads, which `bench/` measures beside the same work in plain Rust. It prints
//! a time in nanoseconds, and how much was done.
#![tactic(auto)]

mod epochs;
mod job;
mod reads;
mod rounds;
mod store;
mod wakes;

use anyhow::{Result, bail};
use job::{Job, Kind};
use std::env;

fn main(rt: HostRuntime) -> Result<()> {
    let alloc = rt.alloc();
    let words: Vec<String> = env::args(&rt)?.collect(alloc)?;
    let [_, kind, sites, threads, count, limit] = words.as_slice() else {
        bail!("usage: bench_threads KIND SITES THREADS COUNT LIMIT");
    };
    let Some(kind) = Kind::of(kind.as_str()) else {
        bail!("there is no load {kind}");
    };
    let (Ok(sites), Ok(threads), Ok(count), Ok(limit)) = (
        sites.parse::<u64>(),
        threads.parse::<u64>(),
        count.parse::<u64>(),
        limit.parse::<u64>(),
    ) else {
        bail!("a number is none");
    };
    let job = Job {
        kind,
        sites,
        threads,
        count,
        limit,
    };
    let done = match kind {
        Kind::ReadsOwn | Kind::ReadsOne | Kind::ReadsBeside | Kind::Queries => {
            reads::run(&rt, alloc, &job)?
        }
        Kind::Wake => wakes::run(&rt, alloc, &job)?,
        Kind::Rounds | Kind::Idle => rounds::run(&rt, alloc, &job)?,
        Kind::Successor => epochs::start_one(&rt, alloc, &job)?,
        Kind::Epochs => epochs::run(&rt, alloc, &job)?,
    };
    println!(&rt; "{} {}", done.nanos, done.count)?;
    Ok(())
}
