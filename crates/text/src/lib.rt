// How far bytes are text: UTF-8 as RFC 3629 has it. Text and position stay two parameters: the look-back needs the octets before.
#![tactic(auto)]

mod ascii;
mod characters;
mod runs;

ghost use Rattle.std.specs.Prelude.{◌≡◌, ◌≤◌, length};
ghost use Rattle.utf8.specs.Valid.{valid_up_to, valid_from};
ghost use Rattle.text.specs.Blocks.{Passed};

use ascii::{ascii_blocks, ascii_bytes, skip_ascii};
use characters::char_width;
use runs::text_blocks;

// A position further on in a text that is not short: near its end, or before the first octet that is wrong.
fn text_run(s: &[u8], from: usize) -> usize
    requires { from ≤ length s.now }
    ensures { Passed s.now from result }
{
    let mut at = from;
    while let Some(on) = text_blocks(s, at) {
        at = ascii_blocks(s, ascii_blocks(s, on, 64), 16);
    }
    at
}

// Where the text ends, character by character.
fn chars(s: &[u8], from: usize) -> usize
    requires { from ≤ length s.now }
    ensures { result ≡ valid_from s.now from }
{
    let mut at = from;
    while let Some(width) = char_width(&s[at..]) {
        // Widths 1 to 3 are added as constants, so that the next load does not wait for the octets before it. Slower as a variable, by 7 in 100 on short strings.
        at = match width {
            1 => ascii_bytes(s, at + 1),
            2 => at + 2,
            3 => at + 3,
            _ => at + width,
        };
    }
    at
}

// How many octets from the start are text: ASCII, then whole blocks, then the rest.
pub fn valid_up_to(s: &[u8]) -> usize
    ensures { result ≡ valid_up_to s.now }
{
    chars(s, text_run(s, skip_ascii(s, 0)))
}
