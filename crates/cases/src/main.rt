#![tactic(auto)]

// Runs the listings of data/: for each file that the arguments name, prints its name and what the bench answers.
use bench_core::session::respond;
use std::io::Write;
use std::{env, fs, io};

fn answer(rt: &HostRuntime, path: &str) -> io::Result<()> {
    let input = fs::read(rt, path)?;
    let output = respond(rt.alloc(), input.as_slice())?;
    println!(rt; "{path}")?;
    rt.stdout().write_all(output.as_slice())
}

fn main(rt: HostRuntime) -> io::Result<()> {
    for path in env::args(&rt)?.skip(1) {
        answer(&rt, path.as_str())?;
    }
    Ok(())
}
