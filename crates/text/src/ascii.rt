// Runs of ASCII.
ghost use Rattle.std.specs.Prelude.{◌≡◌, ◌<◌, ◌≤◌, length, fold, max};
ghost use Rattle.text.specs.Blocks.{Passed};

// A number that none of the octets is above: where their count is a constant, a few loads and maxima. By hand: std's `is_ascii` goes by words
// of eight octets, and LLVM makes no wider vectors of it.
fn high(block: &[u8]) -> u8
    ensures { result ≡ fold max 0 block.now }
{
    block.iter().fold(0, |most, b| most.max(*b))
}

// A position further on: past each n octets that are ASCII.
pub(crate) fn ascii_blocks(s: &[u8], from: usize, n: usize) -> usize
    requires { (0 < n) × (from ≤ length s.now) }
    ensures { Passed s.now from result }
{
    // Steps by n. Slower over `chunks_exact`: a tenth on short strings.
    let mut at = from;
    while s.len() - at >= n {
        if high(&s[at..at + n]) >= 128 {
            return at;
        }
        at += n;
    }
    at
}

// The same with the largest blocks first.
pub(crate) fn skip_ascii(s: &[u8], from: usize) -> usize
    requires { from ≤ length s.now }
    ensures { Passed s.now from result }
{
    let mut at = from;
    for n in [64, 32, 16, 8] {
        at = ascii_blocks(s, at, n);
    }
    at
}

// Are the next 64 octets ASCII?
pub(crate) fn ascii_next(s: &[u8], at: usize) -> bool
    requires { at ≤ length s.now }
{
    s[at..]
        .first_chunk::<64>()
        .is_some_and(|block| high(block) < 128)
}

// A position further on: past each octet that is ASCII.
pub(crate) fn ascii_bytes(s: &[u8], from: usize) -> usize
    requires { from ≤ length s.now }
    ensures { Passed s.now from result }
{
    s[from..]
        .iter()
        .position(|b| *b >= 0x80)
        .map_or(s.len(), |i| from + i)
}
