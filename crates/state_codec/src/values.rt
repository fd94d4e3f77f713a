// The connector values of a tail: reading them, and questions 33 to 36.
ghost use Rattle.std.specs.Prelude.{◌≡◌, map, length};
ghost use Rattle.state.specs.Outcome.{said};
ghost use Rattle.state_wire.specs.Fields.{max_snapshot_bytes};
ghost use Rattle.format.specs.Format.{scan};
ghost use Rattle.format.specs.Fields.{enums_of, connectors_of};
ghost use Rattle.format.specs.Manifest.{entry, counted};
ghost use Rattle.format.specs.Places.{number_at};
ghost use Rattle.format.specs.Values.{value_at, Well};
ghost use Rattle.questions.specs.Sets.{first};
ghost use Rattle.tail.specs.Tail.{values, value_answer, values_answer};
ghost use Rattle.state_layout.specs.Lent.{classes_in};
ghost use Rattle.state_layout.specs.Tables.{manifest_of};
ghost use Rattle.state_codec.specs.Listed.{connectors_at, Listed, Asked};

use state::{Question, Section, Step};
use state_index::keys::{connector_key_end, count_at};
use state_index::{ahead, key_part, word_at};
use state_key_order::read_connector_key;
use state_layout::ends::{connector_type_at, value_end};
use state_layout::keys::{Classes, Connectors, validate_value_enum};
use state_layout::{Manifest, room_start, same_type};
use state_sections::lists::read_ascending;
use state_sections::values::read_value;

// The values, each above the one before it.
pub(crate) fn read_values(t: &[u8]) -> Step
    ensures { result ≡ scan max_snapshot_bytes (counted values) t.now 0 }
{
    read_ascending(t, 0, 12, 0, read_connector_key, read_value)
}

// Questions 34 to 36 of the value at a position. The connector at place `hint` is tried first.
#[tactic(auto, using(crate::proofs::Valued::valued))]
fn value_answer(
    classes: Classes,
    connectors: Connectors,
    t: &[u8],
    at: usize,
    hint: usize,
) -> Result<(), Question>
    requires listed { Listed connectors.s.now connectors.words.now }
    requires well { Well max_snapshot_bytes (entry values) t.now at }
    ensures { result ≡ said (value_answer (classes_in classes.entry) (connectors_at connectors.entry.s.now connectors.entry.words.now) (value_at (entry values) t.now at)) }
{
    let s = connectors.s;
    let key = key_part(t, Section::CONNECTORS, at);
    let i = connectors.find(key, hint).ok_or(Question(34))?;
    let value = connector_key_end(t, at);
    let typed = connector_type_at(s, word_at(connectors.words, i));
    if !same_type(t, value, s, typed) {
        return Err(Question(35));
    }
    if !validate_value_enum(classes, t, value) {
        return Err(Question(36));
    }
    Ok(())
}

// The same value by value, as many as connectors; each is looked for first at its own place.
#[tactic(auto, using(crate::proofs::Asking::asking))]
fn values_answer(classes: Classes, connectors: Connectors, t: &[u8]) -> Result<(), Question>
    requires listed { Listed connectors.s.now connectors.words.now }
    requires well { Well max_snapshot_bytes (counted values) t.now 0 }
    requires counted { number_at 4 t.now 0 ≡ length connectors.words.now }
    ensures { result ≡ said (first (map (value_answer (classes_in classes.entry) (connectors_at connectors.entry.s.now connectors.entry.words.now)) (value_at (counted values) t.now 0))) }
{
    let mut p = ahead(t, 0, 4);
    for i in 0..connectors.words.len() {
        value_answer(classes, connectors, t, p, i)?;
        p = value_end(t, connector_key_end(t, p));
    }
    Ok(())
}

// Questions 33 to 36 of values that were read.
#[tactic(auto, using(state_layout::proofs::Indexed::laid_of, state_layout::proofs::Indexed::laid_front, crate::proofs::Asking::counted_values))]
pub(crate) fn validate_values(s: &[u8], index: &[u32], t: &[u8]) -> Result<(), Question>
    requires asked { Asked s.now index.now }
    requires well { Well max_snapshot_bytes (counted values) t.now 0 }
    ensures { result ≡ said (values_answer (enums_of (manifest_of s.now)) (connectors_of (manifest_of s.now)) (value_at (counted values) t.now 0)) }
{
    let (words, room) = index.split_at(room_start(s, index));
    let m = Manifest { s, words };
    let classes: Classes = m.keys(&[]);
    let connectors: Connectors = m.keys(room);
    if count_at(t, 0) != connectors.words.len() {
        return Err(Question(33));
    }
    values_answer(classes, connectors, t)
}
