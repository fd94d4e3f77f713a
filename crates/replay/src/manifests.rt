// Lines for manifests, and their answers. tools/manifest_vectors.py writes both. HEX is bytes, two digits each, and `-`
// where there are none.
//
//   BASE REVISION WORDS HEX                            a manifest, with an index of so many words:
//                                                      accepted S1 .. S12, or refused QUESTION OFFSET
//   BASE REVISION WORDS HEX HEX                        a manifest and its tail: the same
//   BASE REVISION WORDS HEX BASE REVISION WORDS HEX    a snapshot's and a target's:
//                                                      compatible, differs SECTION PART ENTRY INNER,
//                                                      snapshot QUESTION OFFSET, or target QUESTION OFFSET,
//                                                      then ` starts S1 .. S12` of each that is accepted
//
// Each index is filled before a call. The answer ends with `index` where the call has left another one than it must.
ghost use Rattle.std.specs.Prelude.{◌≤◌};

use super::lines::{behind, bytes, number, position};
use manifest::INDEX_LENGTH;
use state::{Decoded, Question, SideRefusal, Verdict};
use std::io;

// The most bytes of one HEX, and words of an index.
const SIZE: usize = 1024;

const WORDS: usize = 512;

// What stands in each word of the index before a call.
const FILL: u32 = 0xa5a5a5a5;

// Room for the bytes of one manifest and for its index.
#[derive(Drop)]
pub(crate) struct Room {
    pub(crate) bytes: [u8; SIZE],
    index: [u32; WORDS],
}

impl Room {
    pub(crate) fn new() -> Room {
        Room {
            bytes: [0; SIZE],
            index: [0; WORDS],
        }
    }
}

// What a call is given of one manifest.
#[derive(Drop)]
struct Call<'a> {
    bytes: &'a [u8],
    base: u64,
    revision: u32,
    index: &'a mut [u32],
}

// What four words of a line say of a call, or nothing where they ask for a longer index than there is.
fn call_at<'a>(line: &[u8], first: usize, room: &'a mut Room) -> Option<Call<'a>>
    requires { first ≤ 4 }
{
    let index = room
        .index
        .as_mut_slice()
        .get_mut(..position(line, first + 2))?;
    index.fill(FILL);
    Some(Call {
        bytes: bytes(line, first + 3, room.bytes.as_mut_slice()),
        base: number(line, first),
        // A revision is 32 bits wide: of a larger number the last 32 count.
        revision: (number(line, first + 1) % 4294967296) as u32,
        index,
    })
}

// Whether each word is this one.
fn are_all(words: &[u32], word: u32) -> bool {
    words.iter().all(|w| *w == word)
}

// Whether the index is what a refusal leaves: cleared, but for one question.
fn is_refused(question: Question, index: &[u32]) -> bool {
    are_all(index, if question == INDEX_LENGTH { FILL } else { 0 })
}

// Whether the words behind the starts are what acceptance leaves.
fn is_cleared(index: &[u32]) -> bool {
    index.get(12..).is_some_and(|behind| are_all(behind, 0))
}

// Whether the index is what the answer says that it is.
fn is_left(decoded: Decoded, index: &[u32]) -> bool {
    match decoded {
        Ok(starts) => index.starts_with(&starts.at) && is_cleared(index),
        Err(refusal) => is_refused(refusal.question, index),
    }
}

// Whether both indexes are what the verdict says that they are. Starts are not looked at: they are printed.
fn are_left(verdict: Result<Verdict, SideRefusal>, index: &[u32], index2: &[u32]) -> bool {
    match verdict {
        Err(SideRefusal::Snapshot(refusal)) => is_refused(refusal.question, index)
            && are_all(index2, FILL),
        Err(SideRefusal::Target(refusal)) => is_cleared(index)
            && is_refused(refusal.question, index2),
        Ok(_) => is_cleared(index) && is_cleared(index2),
    }
}

// A word, and the starts that stand in the index.
fn print_starts(rt: &impl Print, name: &str, index: &[u32]) -> io::Result<()> {
    print!(rt; "{name}")?;
    for start in index.iter().take(12) {
        print!(rt; " {start}")?;
    }
    Ok(())
}

// Ends the answer.
fn print_end(rt: &impl Print, left: bool) -> io::Result<()> {
    if !left {
        print!(rt; " index")?;
    }
    println!(rt)
}

fn print_decoded(rt: &impl Print, decoded: Decoded, index: &[u32]) -> io::Result<()> {
    match decoded {
        Ok(_) => print_starts(rt, "accepted", index)?,
        Err(refusal) => print!(rt; "refused {refusal}")?,
    }
    print_end(rt, is_left(decoded, index))
}

fn print_both_starts(rt: &impl Print, index: &[u32], index2: &[u32]) -> io::Result<()> {
    print_starts(rt, " starts", index)?;
    print_starts(rt, " starts", index2)
}

fn print_verdict(
    rt: &impl Print,
    verdict: Result<Verdict, SideRefusal>,
    index: &[u32],
    index2: &[u32],
) -> io::Result<()> {
    match verdict {
        Ok(Ok(())) => {
            print!(rt; "compatible")?;
            print_both_starts(rt, index, index2)?;
        }
        Ok(Err(difference)) => {
            print!(rt; "differs {difference}")?;
            print_both_starts(rt, index, index2)?;
        }
        Err(SideRefusal::Snapshot(refusal)) => print!(rt; "snapshot {refusal}")?,
        Err(SideRefusal::Target(refusal)) => {
            print!(rt; "target {refusal}")?;
            print_starts(rt, " starts", index)?;
        }
    }
    print_end(rt, are_left(verdict, index, index2))
}

fn decode(rt: &impl Print, call: Call) -> io::Result<()> {
    let index = call.index;
    let decoded = calls::decode_manifest(call.bytes, call.base, call.revision, index);
    print_decoded(rt, decoded, index)
}

fn decode_tail(rt: &impl Print, call: Call, tail: &[u8]) -> io::Result<()> {
    let index = call.index;
    let decoded = calls::decode_tail(call.bytes, tail, call.base, call.revision, index);
    print_decoded(rt, decoded, index)
}

fn compare(rt: &impl Print, snapshot: Call, target: Call) -> io::Result<()> {
    let index = snapshot.index;
    let index2 = target.index;
    let verdict = calls::compare_manifests(
        snapshot.bytes,
        snapshot.base,
        snapshot.revision,
        index,
        target.bytes,
        target.base,
        target.revision,
        index2,
    );
    print_verdict(rt, verdict, index, index2)
}

// The answer to a line of four words or fewer, of five, or of more. There is none where it asks for a longer index than there is.
pub(crate) fn answer(
    rt: &impl Print,
    line: &[u8],
    room: &mut Room,
    room2: &mut Room,
) -> io::Result<()> {
    let Some(call) = call_at(line, 0, room) else {
        return Ok(());
    };
    if behind(line, 4).is_empty() {
        return decode(rt, call);
    }
    if behind(line, 5).is_empty() {
        return decode_tail(rt, call, bytes(line, 4, &mut room2.bytes));
    }
    match call_at(line, 4, room2) {
        Some(target) => compare(rt, call, target),
        None => Ok(()),
    }
}
