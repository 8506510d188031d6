// What the program answers to its input.
use crate::bench::Bench;
use faults::fault::Fault;
use machine::script::Script;
use std::alloc::{AllocError, Global};
use texts::refused::refused_line;
use texts::text::ROOM;

// The capacity of the program's machine.
const CAPACITY: u8 = 64;

// The line of bits as a script, which is bytes: 1 for the byte "1", 0 for others.
fn script_bits(heap: Global, line: &[u8]) -> Result<Vec<u8>, AllocError> {
    line.iter()
        .map(|byte| u8::from(*byte == b'1'))
        .collect(heap)
}

// Loads the listing, runs it to its end, and answers the report.
fn run_listing(heap: Global, bits: &[u8], listing: &[u8]) -> Result<Vec<u8>, Fault> {
    let mut bench = Bench::open(Script::new(bits, CAPACITY));
    bench.load(heap, listing)?;
    // To the end, whatever the need: that it suffices is not proved of the code.
    bench.advance(u32::MAX)?;
    // A buffer, since report writes to one.
    let mut page = [0u8; ROOM];
    let length = bench.report(&mut page)?;
    Ok(Vec::from_slice(heap, &page[..length])?)
}

// The refused line of a fault; want of memory has none.
fn refused(heap: Global, fault: Fault) -> Result<Vec<u8>, AllocError> {
    let diagnosis = fault.diagnosis().ok_or(AllocError)?;
    Vec::from_slice(heap, refused_line(diagnosis).bytes())
}

// The report, or the refused line, for a line of bits and then a listing, which is empty if no line feed comes.
pub fn respond(heap: Global, input: &[u8]) -> Result<Vec<u8>, AllocError> {
    let mut pieces = input.splitn(2, |byte| *byte == b'\n');
    let bits = script_bits(heap, pieces.next().unwrap_or(&[]))?;
    let listing = pieces.next().unwrap_or(&[]);
    run_listing(heap, bits.as_slice(), listing).or_else(|fault| refused(heap, fault))
}
