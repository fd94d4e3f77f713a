// The entries' fields, after their keys.
#![tactic(auto, using(crate::proofs::Reading::reads), unfolding(format::specs::Manifest::block_head, format::specs::Manifest::connector_rest, format::specs::Manifest::slot_rest, format::specs::Manifest::input_rest))]

ghost use Rattle.std.specs.Prelude.{◌≡◌};
ghost use Rattle.state_wire.specs.Fields.{max_snapshot_bytes};
ghost use Rattle.format.specs.Format.{scan, ◌then◌};
ghost use Rattle.format.specs.Keys.{connector_key};
ghost use Rattle.format.specs.Manifest.{block_head, connector_rest, slot_rest, input_rest};

use crate::values::{read_bound, read_optional_text, read_value_type};
use state::{BlockKind, Step};
use state_key_order::read_connector_key;
use state_wire::{read_tag, step_of, string, take};

// A block's class, kind, state revision and state length.
pub fn read_block_head(s: &[u8], at: usize) -> Step
    ensures { result ≡ scan max_snapshot_bytes block_head s.now at }
{
    let class = string(s, at);
    let Ok(kind) = class else {
        return class;
    };
    let tag = read_tag(s, kind, BlockKind::KNOWN);
    let Ok((_, revision)) = tag else {
        return step_of(tag);
    };
    let revision_read = take(s, revision, 4);
    let Ok(length) = revision_read else {
        return revision_read;
    };
    take(s, length, 8)
}

// A connector's path, declaration order, value type, unit and quantity.
pub fn read_connector_rest(s: &[u8], at: usize) -> Step
    ensures { result ≡ scan max_snapshot_bytes connector_rest s.now at }
{
    let path = string(s, at);
    let Ok(order) = path else {
        return path;
    };
    let order_read = take(s, order, 4);
    let Ok(value_type) = order_read else {
        return order_read;
    };
    let type_read = read_value_type(s, value_type);
    let Ok(unit) = type_read else {
        return type_read;
    };
    let unit_read = read_optional_text(s, unit);
    let Ok(quantity) = unit_read else {
        return unit_read;
    };
    read_optional_text(s, quantity)
}

// A connection: source and target.
pub fn read_connection(s: &[u8], at: usize) -> Step
    ensures { result ≡ scan max_snapshot_bytes (connector_key then connector_key) s.now at }
{
    let source = read_connector_key(s, at);
    let Ok(target) = source else {
        return source;
    };
    read_connector_key(s, target)
}

// A slot's offset and length.
pub fn read_slot_rest(s: &[u8], at: usize) -> Step
    ensures { result ≡ scan max_snapshot_bytes slot_rest s.now at }
{
    let offset = take(s, at, 8);
    let Ok(length) = offset else {
        return offset;
    };
    take(s, length, 8)
}

// An input definition's value type, minimum and maximum.
pub fn read_input_rest(s: &[u8], at: usize) -> Step
    ensures { result ≡ scan max_snapshot_bytes input_rest s.now at }
{
    let value_type = read_value_type(s, at);
    let Ok(minimum) = value_type else {
        return value_type;
    };
    let bound = read_bound(s, minimum);
    let Ok(maximum) = bound else {
        return bound;
    };
    read_bound(s, maximum)
}
