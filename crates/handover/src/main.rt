// Reads one manifest from standard input and prints what the hand-over desk bills: `accepted`, the state words and the units;
// `refused`, the number of the question and the offset; or `too long`, where there are more bytes than are read. Base 0, revision 2.
#![tactic(auto)]

use state::{Refusal, Units};
use state_wire::part;
use std::io;
use std::io::Read;

// The most bytes that are read, and the index words that they need.
const MOST: usize = 16384;

const WORDS: usize = MOST / 2 + 16;

fn print_units(rt: &impl Print, units: Result<Units, Refusal<u64>>) -> io::Result<()> {
    match units {
        Ok(Units { words, units }) => println!(rt; "accepted {words} {units}"),
        Err(refusal) => println!(rt; "refused {refusal}"),
    }
}

fn main(rt: HostRuntime) -> io::Result<()> {
    let mut bytes = [0u8; MOST + 1];
    let mut index = [0u32; WORDS];
    let mut room = &mut bytes[..];
    // std has no From between usize and u64; both are 64 bits wide here.
    let n = io::copy(&mut rt.reader().take(MOST as u64 + 1), &mut room)? as usize;
    let manifest = part(&bytes, 0, n);
    if MOST < manifest.len() {
        return println!(rt; "too long");
    }
    print_units(&rt, calls::units(manifest, 0, 2, &mut index))
}
