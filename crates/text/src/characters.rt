// Characters of more than one octet.
ghost use Rattle.std.specs.Prelude.{◌≡◌, ◌∷◌, ◌+◌, ◌<◌};
ghost use Rattle.utf8.specs.Valid.{lead, char_width};
ghost use Rattle.text.specs.Blocks.{second_from, second_to, IsWidth};

// RFC 3629, section 4: the second octet by the first, from one number to before another. None follows C0, C1, or F5 and above. Two
// functions: a range for each first octet says each bound again at every row.
fn second_from(a: u8) -> u8
    ensures { result ≡ second_from a }
{
    match a {
        0..=0xc1 => 0xc0,
        0xe0 => 0xa0,
        0xf0 => 0x90,
        _ => 0x80,
    }
}

fn second_to(a: u8) -> u8
    ensures { result ≡ second_to a }
{
    match a {
        0xed => 0xa0,
        0xf4 => 0x90,
        0..=0xf4 => 0xc0,
        _ => 0x80,
    }
}

// The width of a character of 1 + N octets, by the first and what follows it.
fn wide<const N: usize>(a: u8, rest: &[u8]) -> Option<usize>
    requires { (0 < N) × (lead a ≡ N + 1) }
    ensures { IsWidth result (char_width (a ∷ rest.now)) }
{
    let (b, others) = rest.get(..N)?.split_first()?;
    let whole = (second_from(a)..second_to(a)).contains(b) && others.iter().all(|c| c / 64 == 2);
    whole.then_some(N + 1)
}

// The width of the character that octets begin with.
pub(crate) fn char_width(s: &[u8]) -> Option<usize>
    ensures { IsWidth result (char_width s.now) }
{
    let (first, rest) = s.split_first()?;
    let a = *first;
    match a {
        0..=0x7f => Some(1),
        0xc0..=0xdf => wide::<1>(a, rest),
        0xe0..=0xef => wide::<2>(a, rest),
        0xf0..=0xf7 => wide::<3>(a, rest),
        _ => None,
    }
}
