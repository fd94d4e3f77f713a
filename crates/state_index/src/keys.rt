// What stands at a position, by tags and lengths alone: bytes, numbers, and where block keys and connector keys end. Past the end `byte_at`,
// `count_at` and `number_at` answer 0 and no `Option`: tables are read only where they stand, and a total function asks no case of its callers.
ghost use Rattle.std.specs.Prelude.{◌≡◌, ◌≤◌, ◌<◌, get_or};
ghost use Rattle.format.specs.Keys.{block_key, connector_key};
ghost use Rattle.format.specs.Places.{number_at, past};

use super::{ahead, text_end};
use state::BlockKey;
use state_wire::remaining;

// The byte at a position; 0 past the end.
pub fn byte_at(s: &[u8], at: usize) -> u8
    ensures { result ≡ get_or s.now at 0 }
{
    s.get(at).copied().unwrap_or(0)
}

// The number of the W bytes at a position; 0 where there are fewer. That of state_wire asks for its bytes, which a reader has tested.
#[tactic(auto, using(crate::proofs::Texts::number_none), unfolding(format::specs::Places::number_at))]
fn number<const W: usize>(s: &[u8], at: usize) -> u64
    requires { (0 < W) × (W ≤ 8) }
    ensures { result ≡ number_at W s.now at }
{
    if remaining(s, at) < W {
        0
    } else {
        state_wire::number_at::<W>(s, at)
    }
}

// The number of the four bytes at a position; 0 where there are fewer. A cast: `usize` has no `From<u64>`.
pub fn count_at(s: &[u8], at: usize) -> usize
    ensures { result ≡ number_at 4 s.now at }
{
    number::<4>(s, at) as usize
}

// The number of the eight bytes at a position; 0 where there are fewer.
pub fn number_at(s: &[u8], at: usize) -> u64
    ensures { result ≡ number_at 8 s.now at }
{
    number::<8>(s, at)
}

// Where the block key at a position ends.
pub fn block_key_end(s: &[u8], at: usize) -> usize
    ensures { result ≡ past block_key s.now at }
{
    let first = ahead(s, at, 1);
    match byte_at(s, at) {
        BlockKey::AUTHORED => text_end(s, first),
        BlockKey::PASS_THROUGH => text_end(s, text_end(s, first)),
        _ => first,
    }
}

// Where the connector key at a position ends.
#[tactic(auto, unfolding(format::specs::Places::past, format::specs::Keys::connector_key))]
pub fn connector_key_end(s: &[u8], at: usize) -> usize
    ensures { result ≡ past connector_key s.now at }
{
    ahead(s, ahead(s, block_key_end(s, at), 1), 4)
}
