// Replays stored vectors: a line of standard input each, and its answer on a line of standard output. A line that begins
// with a digit is one of src/manifests.rt, which tools/manifest_vectors.py writes; any other is one of src/keys.rt, which
// tools/vectors.py writes.
#![tactic(auto)]

mod keys;
mod lines;
mod manifests;

use manifests::Room;
use std::io;
use std::io::BufRead;

// The most lines, and bytes of a line for manifests: two HEX have up to 4096 digits.
const LINES: usize = 1000000;

const LINE: usize = 8192;

// How many bytes from its begin on a line of src/keys.rt may take its words from, and how many are held.
const AHEAD: usize = 262144;

const HELD: usize = AHEAD + 65536;

// Input that was read and is not answered yet. The minima below change nothing: by them the check sees, without a proof by hand, that it lies
// within the bytes.
#[derive(Drop)]
struct Held {
    bytes: [u8; HELD],
    from: usize,
    to: usize,
    ended: bool,
}

impl Held {
    fn rest(&self) -> &[u8] {
        let to = self.to.min(HELD);
        &self.bytes[self.from.min(to)..to]
    }

    // Reads on: a byte at least, or the end.
    fn read(&mut self, reader: &mut impl BufRead) -> io::Result<()> {
        let to = self.to.min(HELD);
        let from = self.from.min(to);
        if HELD - AHEAD <= from {
            self.bytes.copy_within(from..to, 0);
            self.from = 0;
            self.to = to - from;
        }
        let bytes = reader.fill_buf()?;
        let room = &mut self.bytes[self.to.min(HELD)..];
        let n = bytes.len().min(room.len());
        room[..n].copy_from_slice(&bytes[..n]);
        reader.consume(n);
        self.to = self.to.saturating_add(n);
        self.ended = n == 0;
        Ok(())
    }
}

// The line that what is held begins with, its end included, or as much of it as is held.
fn first_line(held: &[u8]) -> &[u8] {
    held.split_inclusive(|c| *c == b'\n').next().unwrap_or(&[])
}

// Whether all is held that the first answer depends on: the line, of a manifest, so that it is answered as soon as it is there; else as much as
// words may be taken from.
fn is_enough(held: &[u8]) -> bool {
    match held.first() {
        Some(b'0'..=b'9') => {
            let line = first_line(held);
            LINE <= line.len() || line.last() == Some(&b'\n')
        }
        Some(_) => AHEAD <= held.len(),
        None => false,
    }
}

// Answers the line that what is held begins with, and says how many bytes that took.
fn answer(rt: &impl Print, held: &[u8], room: &mut Room, room2: &mut Room) -> io::Result<usize> {
    let line = first_line(held);
    match line.first() {
        Some(b'0'..=b'9') => {
            let line = &line[..line.len().min(LINE)];
            manifests::answer(rt, line, room, room2)?;
            Ok(line.len())
        }
        Some(op) => {
            keys::answer(rt, *op, held, &mut room.bytes, &mut room2.bytes)?;
            Ok(line.len())
        }
        None => Ok(0),
    }
}

fn main(rt: HostRuntime) -> io::Result<()> {
    let mut reader = rt.reader();
    let mut held = Held {
        bytes: [0; HELD],
        from: 0,
        to: 0,
        ended: false,
    };
    let mut room = Room::new();
    let mut room2 = Room::new();
    // Input may have no end: so the lines are counted, and what is read for one of them.
    for _ in 0..LINES {
        for _ in 0..AHEAD {
            if held.ended || is_enough(held.rest()) {
                break;
            }
            held.read(&mut reader)?;
        }
        if held.rest().is_empty() {
            return Ok(());
        }
        let taken = answer(&rt, held.rest(), &mut room, &mut room2)?;
        held.from = held.from.saturating_add(taken);
    }
    Ok(())
}
