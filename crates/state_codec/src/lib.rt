// The tail behind a manifest: connector values, state words, flags.
#![tactic(auto)]

mod values;

ghost use Rattle.std.specs.Prelude.{◌≡◌, not, ◌+◌, leb};
ghost use Rattle.state.specs.Outcome.{step_of};
ghost use Rattle.state_wire.specs.Fields.{max_snapshot_bytes};
ghost use Rattle.tail.specs.Tail.{read_words, read_flags, read_tail};
ghost use Rattle.state_layout.specs.Tables.{manifest_of};
ghost use Rattle.state_codec.specs.Listed.{Asked};

use state::{MAX_SNAPSHOT_BYTES, Question, Section, Step};
use state_layout::section_start;
use state_slots::largest::state_words;
use state_wire::{read_count, read_number, step_of};
use values::{read_values, validate_values};

// The word count and the words, and question 37. The words are passed over: the count was held against what is left.
#[tactic(auto, using(crate::proofs::Words::worded))]
fn read_words(t: &[u8], at: usize, total: u64) -> Step
    ensures { result ≡ step_of (read_words total t.now at) }
{
    let count = read_count::<8>(t, at, 8);
    let Ok((words, first)) = count else {
        return step_of(count);
    };
    if words != total {
        return Err(Question(37).at(at));
    }
    // std has no `From` between `u64` and `usize`.
    Ok(first + 8 * words as usize)
}

// The flags and the end of the tail: questions 38 and 10.
#[tactic(auto, using(crate::proofs::Words::flags_is))]
fn read_flags(t: &[u8], at: usize) -> Step
    ensures { result ≡ step_of (read_flags t.now at) }
{
    let flags = read_number::<4>(t, at);
    let Ok((f, next)) = flags else {
        return step_of(flags);
    };
    if f != 0 {
        return Err(Question(38).at(at));
    }
    if next == t.len() {
        Ok(next)
    } else {
        Err(Question(10).at(next))
    }
}

// The tail of an accepted manifest, whose tables stand in the index.
pub fn read_tail(s: &[u8], index: &[u32], t: &[u8]) -> Step
    requires asked { Asked s.now index.now }
    ensures { result ≡ step_of (read_tail (manifest_of s.now) t.now) }
{
    let values = read_values(t);
    let Ok(p) = values else {
        return values;
    };
    validate_values(s, index, t).map_err(|question| question.at(p))?;
    let slots = section_start(index, Section::STATE_SLOTS);
    let words = read_words(t, p, state_words(s, slots));
    let Ok(q) = words else {
        return words;
    };
    read_flags(t, q)
}

// Question 1 of a manifest and its tail.
pub fn too_long(n: usize, t: usize) -> bool
    ensures { result ≡ not (leb (n + t) max_snapshot_bytes) }
{
    MAX_SNAPSHOT_BYTES < n.saturating_add(t)
}
