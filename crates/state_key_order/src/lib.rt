// Block keys and connector keys in the lent bytes: where they end, and how they compare.
#![tactic(auto)]

ghost use Rattle.std.specs.Prelude.{◌≡◌};
ghost use Rattle.format.specs.Format.{Fmt, scan};
ghost use Rattle.format.specs.Lists.{before, same};
ghost use Rattle.state_wire.specs.Fields.{max_snapshot_bytes};
ghost use Rattle.format.specs.Keys.{block_key, connector_key};
ghost use Rattle.state_key_order.specs.Compare.{block_keys_compared, connector_keys_compared, spans_compared};

use order::Compared;
use state::{BlockKey, Refusal, Step, WireDir};
use state_wire::{part, read_tag, step_of, string, take};

// Which of two keys is no whole one, with question and position. Beside `SideRefusal` of state: each names its two sides in its own words.
#[derive(Clone, Copy, PartialEq, Eq)]
pub enum KeyRefusal {
    Left(Refusal<usize>),
    Right(Refusal<usize>),
}

// The order of two keys and how many of their bytes agree.
pub type KeysCompared = Result<Compared, KeyRefusal>;

// Whether a byte string comes before another.
pub fn precedes(left: &[u8], right: &[u8]) -> bool
    ensures { result ≡ before left.now right.now }
{
    order::compare(left, right).order.is_lt()
}

// Whether two byte strings are the same: order's `same`, with its answer as a value of format's definition, which order stands below.
pub fn same_bytes(left: &[u8], right: &[u8]) -> bool
    ensures { result ≡ same left.now right.now }
{
    order::same(left, right)
}

// Where the block key at a position ends.
pub fn read_block_key(s: &[u8], at: usize) -> Step
    ensures { result ≡ scan max_snapshot_bytes block_key s.now at }
{
    let tag = read_tag(s, at, BlockKey::KNOWN);
    let Ok((t, first)) = tag else {
        return step_of(tag);
    };
    let name = string(s, first);
    let authored = t == BlockKey::AUTHORED;
    if authored {
        return name;
    }
    let Ok(second) = name else {
        return name;
    };
    string(s, second)
}

// Where the connector key at a position ends.
pub fn read_connector_key(s: &[u8], at: usize) -> Step
    ensures { result ≡ scan max_snapshot_bytes connector_key s.now at }
{
    let owner = read_block_key(s, at);
    let Ok(direction) = owner else {
        return owner;
    };
    let tag = step_of(read_tag(s, direction, WireDir::KNOWN));
    let Ok(port) = tag else {
        return tag;
    };
    take(s, port, 4)
}

// Two keys of one format, by what reads it, at two positions of lent bytes.
fn compare_keys<R: Fn(&[u8], usize) -> Step>(
    read: R,
    left: &[u8],
    at: usize,
    right: &[u8],
    from: usize,
) -> KeysCompared
    ghost key: { Fmt }
    requires callable { R.IsAlwaysCallable read }
    requires reads_left { (p r : _) → R.post read left p r → r ≡ scan max_snapshot_bytes key left.now p }
    requires reads_right { (p r : _) → R.post read right p r → r ≡ scan max_snapshot_bytes key right.now p }
    ensures { result ≡ spans_compared left.now at (scan max_snapshot_bytes key left.now at) right.now from (scan max_snapshot_bytes key right.now from) }
{
    let e = read(left, at).map_err(KeyRefusal::Left)?;
    let f = read(right, from).map_err(KeyRefusal::Right)?;
    Ok(order::compare(part(left, at, e), part(right, from, f)))
}

// The block keys at two positions of lent bytes: four parameters, as C has them.
pub fn compare_block_keys(left: &[u8], at: usize, right: &[u8], from: usize) -> KeysCompared
    ensures { result ≡ block_keys_compared left.now at right.now from }
{
    compare_keys(read_block_key, left, at, right, from)
}

// The connector keys at two positions of lent bytes.
pub fn compare_connector_keys(left: &[u8], at: usize, right: &[u8], from: usize) -> KeysCompared
    ensures { result ≡ connector_keys_compared left.now at right.now from }
{
    compare_keys(read_connector_key, left, at, right, from)
}
