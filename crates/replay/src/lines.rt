// Words, numbers and bytes in what is lent: a line with its end, and for the lines of src/keys.rt all that is held behind it. A word ends at
// a space or a line's end; one that is missing is empty.

fn ends_word(c: &u8) -> bool {
    *c == b' ' || *c == b'\n'
}

// What stands behind n words, or no bytes where there are fewer.
pub(crate) fn behind(s: &[u8], n: usize) -> &[u8] {
    s.splitn(n.saturating_add(1), ends_word)
        .nth(n)
        .unwrap_or(&[])
}

// What a digit of base 16 stands for.
fn digit(c: u8) -> Option<u8> {
    match c {
        b'0'..=b'9' => Some(c - b'0'),
        b'a'..=b'f' => Some(c - b'a' + 10),
        _ => None,
    }
}

// The decimal number that word n, counted from 0, begins with; 0 where it begins with none. A digit with which it would not fit is passed over.
pub(crate) fn number(s: &[u8], n: usize) -> u64 {
    let mut v: u64 = 0;
    for c in behind(s, n) {
        let Some(d) = digit(*c).filter(|d| *d < 10) else {
            return v;
        };
        v = v
            .checked_mul(10)
            .and_then(|tens| tens.checked_add(u64::from(d)))
            .unwrap_or(v);
    }
    v
}

// A cast: std has no From between usize and u64; both are 64 bits wide here.
pub(crate) fn position(s: &[u8], n: usize) -> usize {
    number(s, n) as usize
}

// The byte that two hexadecimal digits spell: none where the first is none; a second that is none counts 0.
fn byte_of(digits: &[u8]) -> Option<u8> {
    let high = digit(*digits.first()?)?;
    let low = digits.get(1).and_then(|c| digit(*c)).unwrap_or(0);
    Some(high % 16 * 16 + low % 16)
}

// The bytes that word n, a HEX, spells, as many as there is room for.
pub(crate) fn bytes<'a>(s: &[u8], n: usize, room: &'a mut [u8]) -> &'a [u8] {
    let pairs = behind(s, n).chunks_exact(2);
    let mut len: usize = 0;
    for (byte, digits) in room.iter_mut().zip(pairs) {
        let Some(spelt) = byte_of(digits) else {
            break;
        };
        *byte = spelt;
        len = len.saturating_add(1);
    }
    // As many at most are written, which the check does not see.
    &room[..len.min(room.len())]
}
