// A sift of positions in O(k): a table of slots tells most texts apart, and leaves the few whose slot was taken.
ghost use Rattle.std.specs.Prelude.{◌≡◌, IfSome, IfNone, map, false, not, ◌&&◌, ◌+◌, ◌≤◌, ◌<◌, length, take, eqb};
ghost use Rattle.format.specs.Lists.{same, all_different};
ghost use Rattle.state_index.specs.Keys.{text_at};
ghost use Rattle.state_index.specs.Sift.{rolled, spread, mark, slot_at};

use super::keys::number_at;
use super::positions::rising;
use super::words::merge_sort;
use super::{SortKey, position, text_part};
use state_key_order::same_bytes;

// A number of few bytes, rolled from the last one on.
#[tactic(auto, unfolding(crate::specs::Sift::rolled))]
fn roll(t: &[u8]) -> u64
    ensures { result ≡ rolled t.now }
{
    t.iter()
        .rev()
        .fold(0, |n, b| n % 72057594037927936 * 256 + u64::from(*b))
}

// The two halves of a number, multiplied so that the upper bits depend on every bit.
#[tactic(auto, unfolding(crate::specs::Sift::spread))]
pub(crate) fn mix(n: u64) -> u64
    ensures value { result ≡ spread n }
    ensures bound { result < 10525372030054629376 }
{
    n % 4294967296 * 1327217885 + n / 4294967296 * 1123411259
}

// A number of a text, mostly another for another text.
#[tactic(auto, unfolding(crate::specs::Sift::mark))]
fn mark_of(t: &[u8]) -> u64
    ensures { result ≡ mark t.now }
{
    if t.len() < 8 {
        return mix(roll(t));
    }
    mix(number_at(t, 0)) / 2 + mix(number_at(t, t.len() - 8))
}

// The slot, of m, of the text at a position. A cast: `usize` has no `From<u64>`.
#[tactic(auto, unfolding(crate::specs::Sift::slot_at))]
fn slot_at(s: &[u8], m: usize, p: u32) -> usize
    requires { 0 < m }
    ensures value { result ≡ slot_at s.now m p }
    ensures bound { result < m }
{
    (mark_of(text_part(s, position(p))) / 16777216) as usize % m
}

fn same_text(s: &[u8], a: u32, b: u32) -> bool
    ensures { result ≡ same (text_at s.now a) (text_at s.now b) }
{
    same_bytes(text_part(s, position(a)), text_part(s, position(b)))
}

// Whether slot h, in which v stands, is free: the first position stands in each that is, and in its own.
fn is_free(v: u32, first: u32, h: usize, own: usize) -> bool
    ensures { result ≡ (eqb v first && not (eqb h own)) }
{
    v == first && h != own
}

// Leaves at the front of the positions those whose slot was taken by another text, and says how many: the texts of all are different just
// where the texts of these are. None where two texts are the same.
fn sift(s: &[u8], positions: &mut [u32], slots: &mut [u32]) -> Option<usize>
    requires { (0 < length positions.old) × (0 < length slots.old) }
    ensures left { IfSome result (λ r. (r ≤ length positions.old) × (all_different (map (text_at s.now) positions.old) ≡ all_different (map (text_at s.now) (take r positions.new)))) }
    ensures alike { IfNone result (all_different (map (text_at s.now) positions.old) ≡ false) }
{
    let m = slots.len();
    let first = positions[0];
    slots.fill(first);
    let own = slot_at(s, m, first);
    // The place of the next position that is left: it moves on only where one is.
    let mut k = 0;
    for i in 1..positions.len() {
        let p = positions[i];
        let h = slot_at(s, m, p);
        let v = slots[h];
        if is_free(v, first, h, own) {
            slots[h] = p;
            continue;
        }
        if same_text(s, v, p) {
            return None;
        }
        positions[k] = p;
        k += 1;
    }
    Some(k)
}

// Are the texts at the first `count` words all different? As many words behind them, or more, are slots.
pub(crate) fn different(s: &[u8], words: &mut [u32], count: usize) -> bool
    requires { (0 < count) × (count + count ≤ length words.old) }
    ensures { result ≡ all_different (map (text_at s.now) (take count words.old)) }
{
    let (positions, slots) = words.split_at_mut(count);
    let Some(left) = sift(s, positions, slots) else {
        return false;
    };
    if left == 0 {
        return true;
    }
    let (positions, slots) = words.split_at_mut(left);
    let Some(last) = sift(s, positions, slots) else {
        return false;
    };
    let (texts, room) = words.split_at_mut(last);
    merge_sort(s, SortKey::Text, texts, room);
    rising(s, texts)
}
