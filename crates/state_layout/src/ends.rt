// Where the parts of a manifest end, by their tags and lengths alone, whatever the bytes are.
#![tactic(auto, unfolding(format::specs::Places::past, format::specs::Manifest::members, format::specs::Manifest::connector_keys, format::specs::Manifest::block_head, format::specs::Manifest::connector_rest, format::specs::Manifest::input_rest))]

ghost use Rattle.std.specs.Prelude.{◌≡◌};
ghost use Rattle.format.specs.Format.{Fmt, done, free, list, text, number, ◌then◌};
ghost use Rattle.format.specs.Keys.{block_key, connector_key};
ghost use Rattle.format.specs.Manifest.{value_type, value, optional, members, params, connector_keys, block_head, entry, enums, connectors, input_definitions};
ghost use Rattle.format.specs.Places.{past};

use state::WireValueType;
use state_index::keys::{block_key_end, byte_at, connector_key_end, count_at};
use state_index::{ahead, text_end};

#[tactic(auto, using(crate::proofs::Choosing::type_enum, crate::proofs::Choosing::type_other))]
pub fn type_end(s: &[u8], at: usize) -> usize
    ensures { result ≡ past value_type s.now at }
{
    let first = ahead(s, at, 1);
    if byte_at(s, at) == WireValueType::ENUM {
        return text_end(s, first);
    }
    first
}

#[tactic(auto, using(crate::proofs::Choosing::value_number, crate::proofs::Choosing::value_boolean, crate::proofs::Choosing::value_string, crate::proofs::Choosing::value_enum, crate::proofs::Choosing::value_other))]
pub fn value_end(s: &[u8], at: usize) -> usize
    ensures { result ≡ past value s.now at }
{
    let first = ahead(s, at, 1);
    match byte_at(s, at) {
        WireValueType::REAL | WireValueType::INTEGER => ahead(s, first, 8),
        WireValueType::BOOLEAN => ahead(s, first, 1),
        WireValueType::STRING => text_end(s, first),
        WireValueType::ENUM => ahead(s, text_end(s, first), 4),
        _ => first,
    }
}

// Of what may be left out: a byte that is 1 where it is there.
#[tactic(auto, using(crate::proofs::Choosing::optional_given, crate::proofs::Choosing::optional_none))]
fn optional_end<F: Fn(&[u8], usize) -> usize>(s: &[u8], at: usize, given_end: F) -> usize
    ghost given: { Fmt }
    requires callable { F.IsAlwaysCallable given_end }
    requires ends { (p r : _) → F.post given_end s p r → r ≡ past given s.now p }
    ensures { result ≡ past (optional given) s.now at }
{
    let first = ahead(s, at, 1);
    if byte_at(s, at) == 1 {
        return given_end(s, first);
    }
    first
}

// Of a minimum or a maximum.
pub fn bound_end(s: &[u8], at: usize) -> usize
    ensures { result ≡ past (optional value) s.now at }
{
    optional_end(s, at, value_end)
}

// Of a unit or a quantity.
pub fn optional_text_end(s: &[u8], at: usize) -> usize
    ensures { result ≡ past (optional text) s.now at }
{
    optional_end(s, at, text_end)
}

// Of a counted list, entry by entry. Four walks elsewhere have its three lines, in state_declarations, state_codec and state_comparison: each carries
// something else along, and a fold that is handed it, with its law, is longer than they are.
#[tactic(auto, using(crate::proofs::Choosing::list_start, crate::proofs::Choosing::list_next, crate::proofs::Choosing::list_end))]
fn list_end<F: Fn(&[u8], usize) -> usize>(s: &[u8], at: usize, entry_end: F) -> usize
    ghost entry: { Fmt }
    requires callable { F.IsAlwaysCallable entry_end }
    requires ends { (p r : _) → F.post entry_end s p r → r ≡ past entry s.now p }
    ensures { result ≡ past (list 4 0 free entry done) s.now at }
{
    let mut p = ahead(s, at, 4);
    for _ in 0..count_at(s, at) {
        p = entry_end(s, p);
    }
    p
}

pub fn members_end(s: &[u8], at: usize) -> usize
    ensures { result ≡ past members s.now at }
{
    list_end(s, at, text_end)
}

pub fn parameter_end(s: &[u8], at: usize) -> usize
    ensures { result ≡ past (text then value) s.now at }
{
    value_end(s, text_end(s, at))
}

#[tactic(auto, using(crate::proofs::Choosing::params_past))]
pub fn parameters_end(s: &[u8], at: usize) -> usize
    ensures { result ≡ past params s.now at }
{
    list_end(s, at, parameter_end)
}

pub fn connector_keys_end(s: &[u8], at: usize) -> usize
    ensures { result ≡ past connector_keys s.now at }
{
    list_end(s, at, connector_key_end)
}

// Where the kind of the block at a position stands; revision, state length and parameters follow it.
pub fn block_kind_at(s: &[u8], at: usize) -> usize
    ensures { result ≡ past text s.now (past block_key s.now at) }
{
    text_end(s, block_key_end(s, at))
}

// Where the parameters of the block at a position stand.
pub fn parameters_at(s: &[u8], at: usize) -> usize
    ensures { result ≡ past block_head s.now (past block_key s.now at) }
{
    ahead(s, ahead(s, ahead(s, block_kind_at(s, at), 1), 4), 8)
}

// Where the value type stands of the connector whose path stands at a position.
pub fn type_at(s: &[u8], path: usize) -> usize
    ensures { result ≡ past (number 4) s.now (past text s.now path) }
{
    ahead(s, text_end(s, path), 4)
}

// Where the value type of the connector at a position stands.
pub fn connector_type_at(s: &[u8], at: usize) -> usize
    ensures { result ≡ past (number 4) s.now (past text s.now (past connector_key s.now at)) }
{
    type_at(s, connector_key_end(s, at))
}

// Entries of sections 2, 4 and 12: a chain of calls each, over other fields.
pub fn class_end(s: &[u8], at: usize) -> usize
    ensures { result ≡ past (entry enums) s.now at }
{
    members_end(s, text_end(s, at))
}

pub fn connector_end(s: &[u8], at: usize) -> usize
    ensures { result ≡ past (entry connectors) s.now at }
{
    let unit = type_end(s, connector_type_at(s, at));
    optional_text_end(s, optional_text_end(s, unit))
}

pub fn definition_end(s: &[u8], at: usize) -> usize
    ensures { result ≡ past (entry input_definitions) s.now at }
{
    let minimum = type_end(s, text_end(s, at));
    bound_end(s, bound_end(s, minimum))
}
