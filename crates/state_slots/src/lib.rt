// Questions 21 to 24: the state words that slots hold.
#![tactic(auto)]

pub mod largest;

ghost use Rattle.std.specs.Prelude.{ℕ, ◌≡◌, map, ◌+◌, ◌^◌, ◌<◌, ◌≤◌, length};
ghost use Rattle.std.specs.Slice.Iter.{iter_rest};
ghost use Rattle.state.specs.Outcome.{said};
ghost use Rattle.format.specs.Keys.{block_key};
ghost use Rattle.format.specs.Fields.{state_len};
ghost use Rattle.format.specs.Admits.{All};
ghost use Rattle.format.specs.Places.{past};
ghost use Rattle.questions.specs.Sets.{first};
ghost use Rattle.questions.specs.Declarations.{is_stateful, declarations};
ghost use Rattle.questions.specs.Slots.{words, by_offset, join_from, slots};
ghost use Rattle.state_layout.specs.Tables.{manifest_of, Tabled, Leaves};
ghost use Rattle.state_slots.specs.Walk.{block_at, slot_at, stateful_of, NextStateful, pairwise, key_asked, words_asked, words_at, end_of, Ends, Held};

use state::{BlockKind, Question, Section};
use state_index::keys::{block_key_end, byte_at, number_at};
use state_index::{SortKey, ahead, key_part, position, words};
use state_key_order::same_bytes;
use state_layout::ends::block_kind_at;
use state_layout::{Manifest, room_start};
use std::slice::Iter;

// Is the block at a position stateful?
#[tactic(auto, using(crate::proofs::Parts::stateful_at))]
fn is_stateful(s: &[u8], block: usize) -> bool
    ensures { result ≡ is_stateful (block_at s.now block) }
{
    byte_at(s, block_kind_at(s, block)) == BlockKind::STATEFUL
}

// How many words its state has. Two steps lead there from the kind: a function for where it stands would be no plainer.
#[tactic(auto, using(crate::proofs::Parts::length_at))]
fn state_len(s: &[u8], block: usize) -> u64
    ensures { result ≡ state_len (block_at s.now block) }
{
    let kind = block_kind_at(s, block);
    number_at(s, ahead(s, ahead(s, kind, 1), 4))
}

// The next stateful block of those that are left.
fn next_stateful<'a>(s: &[u8], left: &mut Iter<'a, u32>) -> Option<&'a u32>
    ensures { NextStateful s.now (iter_rest left.old) (iter_rest left.new) result }
{
    left.find(|block| is_stateful(s, position(**block)))
}

// Asks each stateful block with its slot, in order: yes to all, or the first no; 21 where a block or a slot is left alone.
#[tactic(auto, using(crate::proofs::Walks::walk))]
fn for_pairs<F: Fn(&[u8], usize, usize) -> Result<(), Question>>(
    s: &[u8],
    blocks: &[u32],
    slots: &[u32],
    ask: F,
) -> Result<(), Question>
    ghost answer: { ℕ → ℕ → ℕ }
    requires callable { F.IsAlwaysCallable ask }
    requires answers { (t : _) (b e : ℕ) → t.now ≡ s.now → b < 2 ^ 64 → e < 2 ^ 64 → (r : _) → F.post ask t b e r → r ≡ said (answer b e) }
    ensures { result ≡ said (pairwise answer (stateful_of s.now blocks.now) slots.now) }
{
    let mut left = blocks.iter();
    for slot in slots {
        let block = next_stateful(s, &mut left).ok_or(Question(21))?;
        ask(s, position(*block), position(*slot))?;
    }
    if next_stateful(s, &mut left).is_some() {
        return Err(Question(21));
    }
    Ok(())
}

// Question 21 of a block and its slot: does the slot name the block?
#[tactic(auto, using(crate::proofs::Parts::other_key, crate::proofs::Parts::same_key))]
fn key_answer(s: &[u8], block: usize, slot: usize) -> Result<(), Question>
    ensures { result ≡ said (key_asked s.now block slot) }
{
    let key = key_part(s, Section::STATE_SLOTS, slot);
    if !same_bytes(key, key_part(s, Section::BLOCKS, block)) {
        return Err(Question(21));
    }
    Ok(())
}

// The words of a slot whose offset stands at a position: the first, and how many.
fn words_at(s: &[u8], at: usize) -> (u64, u64)
    ensures { result ≡ words_at s.now at }
{
    (number_at(s, at), number_at(s, ahead(s, at, 8)))
}

// Questions 22 and 23 of the slot of a block.
#[tactic(auto, using(crate::proofs::Parts::other_length, crate::proofs::Parts::ends_late, crate::proofs::Parts::both_hold))]
fn slot_answer(s: &[u8], block: usize, slot: usize) -> Result<(), Question>
    ensures { result ≡ said (words_asked s.now block slot) }
{
    let (offset, length) = words_at(s, block_key_end(s, slot));
    if length != state_len(s, block) {
        return Err(Question(22));
    }
    if offset.checked_add(length).is_none() {
        return Err(Question(23));
    }
    Ok(())
}

// Puts the positions of the slots' offsets into as many words. That positions fit is a clause, here and below: lent the manifest, both would find
// the slots in it again and speak of its table.
// With the slots by `zip` the proof did not close: nothing is known of what is written through an adapter of `iter_mut`. Copied first and stepped
// over then, they would become a call of `memmove`, which the library for C would need from outside.
#[tactic(auto, using(crate::proofs::Offsets::gathering))]
fn gather_offsets(s: &[u8], slots: &[u32], offsets: &mut [u32])
    requires { (length slots.now ≡ length offsets.old) × (length s.now < 2 ^ 32) }
    ensures { offsets.new ≡ map (past block_key s.now) slots.now }
{
    for i in 0..slots.len() {
        // A position fits in 32 bits, as asked.
        offsets[i] = block_key_end(s, position(slots[i])) as u32;
    }
}

// Where a slot ends whose offset stands at a position, if it starts where it is expected.
fn end_of(s: &[u8], expected: u64, at: usize) -> Option<u64>
    ensures { result ≡ end_of expected (words_at s.now at) }
{
    let (offset, length) = words_at(s, at);
    if offset != expected {
        return None;
    }
    offset.checked_add(length)
}

// Does each of the slots whose offsets stand at these positions start where the one before it ends, the first at 0?
fn slots_join(s: &[u8], offsets: &[u32]) -> bool
    requires { All (λ p. Ends (words_at s.now p)) offsets.now }
    ensures { result ≡ join_from 0 (map (words_at s.now) offsets.now) }
{
    offsets
        .iter()
        .try_fold(0, |expected, at| end_of(s, expected, position(*at)))
        .is_some()
}

// Question 24: sorted by offset, the slots start at 0 and join. Two words of the room for each slot are scratch.
fn slots_cover(s: &[u8], slots: &[u32], room: &mut [u32]) -> bool
    requires room { (length slots.now + length slots.now ≤ length room.old) × (length s.now < 2 ^ 32) }
    requires all { All (λ p. Held (slot_at s.now p)) slots.now }
    ensures { result ≡ join_from 0 (by_offset (map (λ p. words (slot_at s.now p)) slots.now)) }
{
    let (offsets, spare) = room.split_at_mut(slots.len());
    gather_offsets(s, slots, offsets);
    words::merge_sort(s, SortKey::Number, offsets, spare);
    slots_join(s, offsets)
}

// Questions 21 to 24, after 11 to 16 said yes. All slots are asked 21 before the first is asked 22, so there are two walks.
#[tactic(auto, using(crate::proofs::Whole::asked))]
pub fn validate_slots(s: &[u8], index: &mut [u32]) -> Result<(), Question>
    requires tabled { Tabled s.now index.old }
    requires declared { first (declarations (manifest_of s.now)) ≡ 0 }
    ensures value { result ≡ said (first (slots (manifest_of s.now))) }
    ensures leaves { Leaves s.now index.old index.new }
{
    let end = room_start(s, index);
    let (words, room) = index.split_at_mut(end);
    let m = Manifest { s, words };
    let blocks = m.table(Section::BLOCKS);
    let slots = m.table(Section::STATE_SLOTS);
    for_pairs(s, blocks, slots, key_answer)?;
    for_pairs(s, blocks, slots, slot_answer)?;
    if !slots_cover(s, slots, room) {
        return Err(Question(24));
    }
    Ok(())
}
