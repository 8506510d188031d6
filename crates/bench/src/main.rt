#![tactic(auto)]

// The program: standard input to standard output.
use bench_core::session::respond;
use std::io;
use std::io::{Read, Write};

// The most bytes that are read.
const MOST: usize = 4096;

fn main(rt: HostRuntime) -> io::Result<()> {
    // All room at once, so that the first read asks for all that is taken; a byte more, so that a full input makes it no larger.
    let mut input = Vec::with_capacity(rt.alloc(), MOST + 1)?;
    rt.stdin().take(MOST as u64).read_to_end(&mut input)?;
    let output = respond(rt.alloc(), input.as_slice())?;
    rt.stdout().write_all(output.as_slice())
}
