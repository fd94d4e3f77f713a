// What stands at the positions that the words of the lent index say: texts, and the keys of entries.
#![tactic(auto)]

mod hints;
pub mod keys;
mod merge;
mod positions;
mod sift;
pub mod words;

ghost use Rattle.std.specs.Prelude.{◌≡◌, ◌+◌, ◌<◌, min, length, get_or, cond, eqb};
ghost use Rattle.format.specs.Format.{text};
ghost use Rattle.format.specs.Manifest.{numbered};
ghost use Rattle.format.specs.Places.{past, key_at};
ghost use Rattle.state_index.specs.Keys.{text_at};

use keys::{block_key_end, connector_key_end, count_at};
use state::Section;
use state_wire::{part, remaining};

// What positions are sorted by. A kind, no closure: that it orders is proved once, not at each caller.
#[derive(Clone, Copy, PartialEq, Eq)]
pub enum SortKey {
    // The text of the string there.
    Text,
    // The number of the eight bytes there.
    Number,
}

impl SortKey {
    // The kind that a number stands for: 1 the number, any other the text.
    pub fn of(kind: u8) -> SortKey
        ensures { result ≡ cond (eqb kind 1) SortKey.Number SortKey.Text }
    {
        match kind {
            1 => SortKey::Number,
            _ => SortKey::Text,
        }
    }
}

// A position n bytes further on, or the end of the bytes.
pub fn ahead(s: &[u8], at: usize, n: usize) -> usize
    ensures { result ≡ min (at + n) (length s.now) }
{
    if remaining(s, at) <= n {
        s.len()
    } else {
        at + n
    }
}

// Where the string at a position ends.
#[tactic(auto, using(crate::proofs::Texts::text_past))]
pub fn text_end(s: &[u8], at: usize) -> usize
    ensures { result ≡ past text s.now at }
{
    ahead(s, ahead(s, at, 4), count_at(s, at))
}

// The text of the string at a position.
#[tactic(auto, using(crate::proofs::Texts::text_is), unfolding(format::specs::Values::value_at))]
pub fn text_part(s: &[u8], at: usize) -> &[u8]
    ensures { result.now ≡ text_at s.now at }
{
    part(s, ahead(s, at, 4), text_end(s, at))
}

// Where the key of an entry of a section ends that starts at a position.
pub fn key_end(s: &[u8], section: u8, at: usize) -> usize
    ensures { result ≡ past (numbered section).key s.now at }
{
    match section {
        Section::CONNECTIONS => connector_key_end(s, connector_key_end(s, at)),
        Section::BLOCKS | Section::SCHEDULE | Section::STATE_SLOTS => block_key_end(s, at),
        Section::CONNECTORS
        | Section::CONNECTOR_ORDER
        | Section::DRIVER_OF
        | Section::EXTERNAL_INPUTS => connector_key_end(s, at),
        _ => text_end(s, at),
    }
}

// The bytes that this key is ranked by. The section is a number, as `key_end` and the hints of a table have it; inlined, since else a look-up
// among connectors, whose section is a constant, makes the match at each turn.
#[inline]
pub fn key_part(s: &[u8], section: u8, at: usize) -> &[u8]
    ensures { result.now ≡ key_at (numbered section) s.now at }
{
    match section {
        Section::BLOCKS..=Section::BOUNDARY_OUTPUTS => part(s, at, key_end(s, section, at)),
        _ => text_part(s, at),
    }
}

// A word as a position. A cast: `usize` has no `From<u32>`.
pub fn position(word: u32) -> usize
    ensures { result ≡ word }
{
    word as usize
}

pub fn word_at(index: &[u32], i: usize) -> usize
    requires { i < length index.now }
    ensures { result ≡ get_or index.now i 0 }
{
    position(index[i])
}
