// Runs of whole characters, by blocks.
ghost use Rattle.std.specs.Prelude.{◌≡◌, true, false, ◌+◌, ◌<◌, ◌≤◌, length, get_or, IfSome};
ghost use Rattle.text.specs.Blocks.{Clean, pad, CleanUpTo, QuietAt, Passed};

use crate::ascii::ascii_next;

// Is the octet z wrong after the three octets w, x, y? No branch, so that LLVM makes vector code of a loop over it.
fn flaw(w: u8, x: u8, y: u8, z: u8) -> bool
    ensures { result ≡ false → Clean w x y z }
{
    let need = (y >= 0xc0) | (x >= 0xe0) | (w >= 0xf0);
    let next = (z >= 0x80) & (z < 0xc0);
    let below_a0 = (z >= 0x80) & (z < 0xa0);
    let below_90 = (z >= 0x80) & (z < 0x90);
    let first = ((y >= 0xc0) & (y < 0xc2)) | (y >= 0xf5);
    let low = ((y == 0xe0) & below_a0) | ((y == 0xf0) & below_90);
    let high = ((y == 0xed) & !below_a0) | ((y == 0xf4) & !below_90);
    (need ^ next) | first | low | high
}

// Is one of the n octets from a position wrong after the three before it? By index: slower over `array_windows`, by 3 in 100.
fn broken(s: &[u8], at: usize, n: usize) -> bool
    requires { (3 ≤ at) × (at + n ≤ length s.now) }
    ensures { result ≡ false → CleanUpTo s.now at (at + n) }
{
    let mut bad = false;
    for i in 0..n {
        let p = at + i;
        bad |= flaw(s[p - 3], s[p - 2], s[p - 1], s[p]);
    }
    bad
}

// The octet at an index of the text with three zeros in front. An `if` says it plainer than `checked_sub` and `map_or`.
fn padded(s: &[u8], i: usize) -> u8
    requires { i < length s.now + 3 }
    ensures { result ≡ get_or (pad s.now) i 0 }
{
    if i < 3 { 0 } else { s[i - 3] }
}

// Does no character that begins before a position reach past it?
fn quiet(s: &[u8], at: usize) -> bool
    requires { at ≤ length s.now }
    ensures { result ≡ true → QuietAt s.now at }
{
    padded(s, at) < 0xf0 && padded(s, at + 1) < 0xe0 && padded(s, at + 2) < 0xc0
}

// Where octets have three before them: at a position, or past the first three where they are right.
fn opening(s: &[u8], from: usize) -> Option<usize>
    requires { (from ≤ length s.now) × (3 ≤ length s.now) }
    ensures { IfSome result (λ at. (3 ≤ at) × CleanUpTo s.now from at) }
{
    if from >= 3 {
        return Some(from);
    }
    if flaw(0, 0, 0, s[0]) || flaw(0, 0, s[0], s[1]) || flaw(0, s[0], s[1], s[2]) {
        return None;
    }
    Some(3)
}

// Past each n octets that are right, up to a run of ASCII.
fn clean_blocks(s: &[u8], from: usize, n: usize) -> usize
    requires { (0 < n) × (3 ≤ from) × (from ≤ length s.now) }
    ensures { CleanUpTo s.now from result }
{
    // Steps by n and stops at ASCII: two ways out that chunks would need a position for.
    let mut at = from;
    while s.len() - at >= n {
        if broken(s, at, n) {
            return at;
        }
        at += n;
        if ascii_next(s, at) {
            return at;
        }
    }
    at
}

// The last octets, where they are right: a block, and the block at the end, which may begin before the first one's end.
fn clean_end(s: &[u8], from: usize) -> usize
    requires { (3 ≤ from) × (from ≤ length s.now) × (19 ≤ length s.now) }
    ensures { CleanUpTo s.now from result }
{
    let left = s.len() - from;
    if left >= 32 {
        return from;
    }
    if left > 16 && broken(s, from, 16) {
        return from;
    }
    if broken(s, s.len() - 16, 16) {
        return from;
    }
    s.len()
}

// The last position up to an end that no character reaches past.
fn last_quiet(s: &[u8], from: usize, end: usize) -> Option<usize>
    requires { (from ≤ end) × (end ≤ length s.now) }
    ensures { IfSome result (λ at. (from < at) × (at ≤ end) × QuietAt s.now at) }
{
    (from + 1..end + 1).rev().find(|at| quiet(s, *at))
}

// From the end of a character to the end of another, in a text that is not short.
pub(crate) fn text_blocks(s: &[u8], from: usize) -> Option<usize>
    requires { from ≤ length s.now }
    ensures { IfSome result (λ at. (from < at) × Passed s.now from at) }
{
    if s.len() - from < 28 || !quiet(s, from) {
        return None;
    }
    let open = opening(s, from)?;
    last_quiet(s, from, clean_end(s, clean_blocks(s, open, 32)))
}
