//! Jobs that users of `iref` wait for, over inputs that it makes: `iref_bench JOB COUNT SEED ..` does
//! each job over inputs of this size, and prints a digest of its results.
#![tactic(auto)]

mod awkward;
mod digest;
mod digits;
mod keys;
mod list;
mod made;
mod mapping;
mod mirror;
mod names;
mod namespaces;
mod reader;
mod sorted;
mod sorts;
mod tables;
mod writer;

use anyhow::{Context, Result, bail};
use digest::Digest;
use made::Numbers;
use std::alloc::Global;
use std::env;
use std::rt::Env;

// The digest of a job.
fn digest_of(alloc: Global, job: &str, count: u32, seed: u32) -> Result<u64> {
    let mut digest = Digest::new();
    let mut numbers = Numbers::new(seed);
    let count = u64::from(count);
    match job {
        "read" => reader::run(alloc, count, &mut numbers, &mut digest)?,
        "write" => writer::run(alloc, count, &mut numbers, &mut digest)?,
        "mirror" => mirror::run(alloc, count, &mut numbers, &mut digest)?,
        "list" => list::run(alloc, count, &mut numbers, &mut digest)?,
        "keys" => keys::run(alloc, count, &mut numbers, &mut digest)?,
        "sorted" => sorted::run(alloc, count, &mut numbers, &mut digest)?,
        "map" => mapping::run(alloc, count, &mut numbers, &mut digest)?,
        "awkward" => awkward::run(alloc, count, &mut numbers, &mut digest)?,
        "tables" => {
            tables::run(alloc, count, &mut numbers, &mut digest)?;
            sorts::run(alloc, count, &mut numbers, &mut digest)?;
        }
        _ => bail!("no such job"),
    }
    Ok(digest.finish())
}

// Does each job that the arguments name, three words a job.
fn run_all<R: Print + Env + AllocGlobal>(rt: &R) -> Result<()> {
    let mut words = env::args(rt)?;
    let _program = words.next();
    for _job in 0..u16::MAX {
        let Some(job) = words.next() else {
            break;
        };
        let count = words.next().context("no count")?;
        let seed = words.next().context("no seed")?;
        let count = count.as_str().parse::<u32>().context("no count")?;
        let seed = seed.as_str().parse::<u32>().context("no seed")?;
        let digest = digest_of(rt.alloc(), job.as_str(), count, seed)?;
        println!(rt; "{job} {digest:016x}")?;
    }
    Ok(())
}

fn main(rt: HostRuntime) -> Result<()> {
    run_all(&rt)
}
