//! The jobs that users of zkdump wait for, over conversations that are made in memory from a seed: what bench/run measures.
//!
//! `bench_jobs JOB SEED TURNS` does one of them and prints a sum of all that came out, the same at each run; the job `all`
//! is each of them. Another job is refused. The stored run has more turns than there are clients: in those above them,
//! conversations are relayed.
#![tactic(auto)]

mod digest;
mod feed;
mod jobs;
mod life;
mod place;
mod random;
mod script;
mod streams;

use anyhow::{Result, bail, ensure};
use std::alloc::Global;
use std::env;

const JOBS: [&str; 6] = ["check", "single", "show", "build", "clients", "archive"];

fn run(alloc: Global, job: &str, seed: u64, turns: u64) -> Result<u64> {
    match job {
        "check" => jobs::night(alloc, false, seed, turns),
        "single" => jobs::single(alloc, seed, turns),
        "show" => jobs::night(alloc, true, seed, turns),
        "build" => jobs::build(alloc, seed, turns),
        "clients" => jobs::clients(alloc, seed, turns),
        "archive" => jobs::archive(alloc, seed, turns),
        _ => bail!("no such job"),
    }
}

fn main(rt: HostRuntime) -> Result<()> {
    let words: Vec<String> = env::args(&rt)?.collect(rt.alloc())?;
    ensure!(words.len() == 4, "usage: bench_jobs JOB SEED TURNS");
    let seed = words[2].as_str().parse::<u64>()?;
    let turns = words[3].as_str().parse::<u64>()?;
    let mut done = false;
    for job in JOBS {
        if words[1].as_str() == job || words[1].as_str() == "all" {
            let sum = run(rt.alloc(), job, seed, turns)?;
            println!(rt; "{job} {sum:016x}")?;
            done = true;
        }
    }
    ensure!(done, "no such job");
    Ok(())
}
