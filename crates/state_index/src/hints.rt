// A number of a key, by which its hints are found. Hints decide nothing: a place that one names is taken only if its entry has the key, so a
// hint that is wrong or gone costs a search and no more.
use super::keys::number_at;
use super::sift::mix;

// A number, and the eight bytes at a position.
fn join(n: u64, key: &[u8], at: usize) -> u64 {
    mix(n) % 9223372036854775808 + number_at(key, at) % 9223372036854775808
}

// A number of a key's first 48 and last sixteen bytes, in two lanes, or of as many as there are; 0 for a key of fewer than eight.
pub(crate) fn hash(key: &[u8]) -> u64 {
    let n = key.len();
    if n < 8 {
        return 0;
    }
    let last = n.saturating_sub(16);
    // A cast: `u64` has no `From<usize>`.
    let mut a = n as u64;
    let mut b = 0;
    for i in (0..last.min(48)).step_by(16) {
        a = join(a, key, i);
        b = join(b, key, i + 8);
    }
    mix(join(a, key, last)) / 2 + mix(join(b, key, n - 8)) / 2
}
