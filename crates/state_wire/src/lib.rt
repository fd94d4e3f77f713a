// Fields of the wire, read where they stand: little-endian numbers, tags, counts and strings. Slice and position are parameters (document 01).
#![tactic(auto, using(crate::proofs::Fields::within), unfolding(crate::specs::Fields::read_span, crate::specs::Fields::read_number, crate::specs::Fields::read_tag, crate::specs::Fields::bounded_count, crate::specs::Fields::read_count, crate::specs::Fields::read_text))]

ghost use Rattle.std.specs.Prelude.{◌≡◌, ◌+◌, ◌-◌, ◌≤◌, length, leb};
ghost use Rattle.state.specs.Bytes.{span, number_of};
ghost use Rattle.state.specs.Outcome.{step_of, field_of, step_of_field, offset_of};
ghost use Rattle.state_wire.specs.Fields.{read_span, read_number, read_tag, bounded_count, read_count, read_text, text_of, max_snapshot_bytes};

use state::{Field, MAX_SNAPSHOT_BYTES, Question, Refusal, Step};

// The offset of a position: it stops at the largest number. Here and below `as`, since std has no `From` between usize and u64: both have
// 64 bits.
pub fn offset(base: u64, position: usize) -> u64
    ensures { result ≡ offset_of base position }
{
    base.saturating_add(position as u64)
}

// How many bytes are left.
pub fn remaining(s: &[u8], at: usize) -> usize
    ensures { result ≡ length s.now - at }
{
    s.len().saturating_sub(at)
}

// Question 3: are there n bytes?
fn enough(s: &[u8], at: usize, n: usize) -> bool
    ensures { result ≡ leb (at + n) (length s.now) }
{
    at <= s.len() && n <= s.len() - at
}

// The position after n bytes.
pub fn take(s: &[u8], at: usize, n: usize) -> Step
    ensures { result ≡ step_of (read_span n s.now at) }
{
    if enough(s, at, n) {
        Ok(at + n)
    } else {
        Err(Question(3).at(at))
    }
}

// The number that W bytes spell at a position that has them: one load where W is 1, 4 or 8. One and four stand by themselves: written into eight
// bytes and read again at once, they would be waited for.
#[tactic(auto, using(crate::proofs::Fields::byte, crate::proofs::Numbers::number_wide, crate::proofs::Numbers::number_four))]
pub fn number_at<const W: usize>(s: &[u8], at: usize) -> u64
    requires fits { at + W ≤ length s.now }
    requires width { W ≤ 8 }
    ensures { result ≡ number_of (span s.now at (at + W)) }
{
    if W == 1 {
        return u64::from(s[at]);
    }
    if W == 4 {
        let mut word = [0; 4];
        word.copy_from_slice(&s[at..at + W]);
        return u64::from(u32::from_le_bytes(word));
    }
    let mut bytes = [0; 8];
    bytes[..W].copy_from_slice(&s[at..at + W]);
    u64::from_le_bytes(bytes)
}

// A number of W bytes.
pub fn read_number<const W: usize>(s: &[u8], at: usize) -> Field
    requires width { W ≤ 8 }
    ensures { result ≡ field_of (read_number W s.now at) }
{
    let next = take(s, at, W)?;
    Ok((number_at::<W>(s, at), next))
}

// A tag: a byte below `known`. Question 6 asks no more of it than that: which tags there are is the caller's to say.
#[tactic(auto, using(crate::proofs::Fields::byte), unfolding(crate::specs::Fields::read_span, crate::specs::Fields::read_number, crate::specs::Fields::read_tag))]
pub fn read_tag(s: &[u8], at: usize, known: u8) -> Result<(u8, usize), Refusal<usize>>
    ensures { result ≡ field_of (read_tag known s.now at) }
{
    let next = take(s, at, 1)?;
    let tag = s[at];
    if tag < known {
        Ok((tag, next))
    } else {
        Err(Question(6).at(next))
    }
}

// A count that was read, if what is left has at least so many bytes for each.
pub fn bounded_count(s: &[u8], next: usize, count: u64, least: u64) -> Field
    ensures { result ≡ field_of (bounded_count least s.now count next) }
{
    if count.saturating_mul(least) <= remaining(s, next) as u64 {
        Ok((count, next))
    } else {
        Err(Question(7).at(next))
    }
}

// A count of W bytes, if what is left has `least` bytes for each.
pub fn read_count<const W: usize>(s: &[u8], at: usize, least: u64) -> Field
    requires width { W ≤ 8 }
    ensures { result ≡ field_of (read_count W least s.now at) }
{
    let count = read_number::<W>(s, at);
    let Ok((n, next)) = count else {
        return count;
    };
    bounded_count(s, next, n, least)
}

// Where a number was read to, its refusal passed on.
pub fn step_of<N: Drop>(f: Result<(N, usize), Refusal<usize>>) -> Step
    ensures { result ≡ step_of_field f }
{
    f.map(|(_, next)| next)
}

// A string of at most `limit` bytes: its length, then its text.
pub fn string_bounded(s: &[u8], at: usize, limit: usize) -> Step
    ensures { result ≡ step_of (read_text limit s.now at) }
{
    let length = read_number::<4>(s, at);
    let Ok((n, start)) = length else {
        return step_of(length);
    };
    let size = n as usize;
    if limit < size {
        return Err(Question(4).at(at));
    }
    let bytes = take(s, start, size);
    let Ok(next) = bytes else {
        return bytes;
    };
    let valid = text::valid_up_to(part(s, start, next));
    if valid == size {
        Ok(next)
    } else {
        Err(Question(5).at(start + valid))
    }
}

pub fn string(s: &[u8], at: usize) -> Step
    ensures { result ≡ step_of (read_text max_snapshot_bytes s.now at) }
{
    string_bounded(s, at, MAX_SNAPSHOT_BYTES)
}

// The bytes from a up to b, or up to the end where b lies past it: a part of the lent ones.
pub fn part(s: &[u8], a: usize, b: usize) -> &[u8]
    ensures { result.now ≡ span s.now a b }
{
    s.get(a..b.min(s.len())).unwrap_or(&s[..0])
}

// The text of a string, as the part of the lent bytes that it occupies. No `Option`: it promises the empty part where the reading is refused,
// for callers that have read the string before.
pub fn string_text(s: &[u8], at: usize, limit: usize) -> &[u8]
    ensures { result.now ≡ text_of (read_text limit s.now at) }
{
    let Ok(next) = string_bounded(s, at, limit) else {
        return part(s, 0, 0);
    };
    part(s, at + 4, next)
}
